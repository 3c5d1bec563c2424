ghost use Rattle.std.specs.Prelude.{◌≡◌, ◌<◌, ◌≤◌, ◌↔◌, [], ◌∷◌, length, IsTrue, MatchOption};
ghost use Rattle.storage.specs.Registry.{most};

use crate::reader::READERS;

// A stack of the numbers that were freed. It is an array and a count, as the ring's record lies in fixed memory and may be
// copied, which std's and the kit's vectors may not.
#[derive(Clone, Copy)]
pub struct Freed {
    numbers: [u16; READERS],
    count: usize,
    ghost long: { length numbers ≡ most },
    ghost few: { count ≤ most },
}

impl Freed {
    ghost use Rattle.storage.specs.Freed.{stack};

    pub(crate) fn new() -> Self
        ensures { stack result ≡ [] }
    {
        Freed {
            numbers: [0; READERS],
            count: 0,
        }
    }

    pub(crate) fn is_empty(&self) -> bool
        ensures { IsTrue result ↔ (stack self.now ≡ []) }
    {
        self.count == 0
    }

    pub(crate) fn push(&mut self, number: usize)
        requires room { length (stack self.old) < most }
        requires small { number < most }
        ensures { stack self.new ≡ number ∷ stack self.old }
    {
        self.numbers[self.count] = number as u16;
        self.count += 1;
    }

    // The latest.
    pub(crate) fn pop(&mut self) -> Option<usize>
        ensures { MatchOption result ((stack self.old ≡ []) × (stack self.new ≡ [])) (λ number. stack self.old ≡ number ∷ stack self.new) }
    {
        if self.count == 0 {
            return None;
        }
        self.count -= 1;
        Some(usize::from(self.numbers[self.count]))
    }
}
