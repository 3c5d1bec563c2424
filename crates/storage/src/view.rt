ghost use Rattle.std.specs.Prelude.{⊤, ◌≡◌, ◌+◌, ◌≤◌, length};

use crate::circular::CircularIndex;
use source::Source;
use std::alloc::AllocError;

// What a read hands out: the unread events, oldest first, as two runs of the slots, which lie in the caller's memory.
pub struct View<'a, E> {
    first: &'a [E],
    second: &'a [E],
    ghost few: { length first.now + length second.now ≤ 1048576 },
}

impl<'a, E> View<'a, E> {
    ghost use Rattle.storage.specs.Calls.{Runs};

    // `count` events from the place `from`, as far as the ring's end and then from place 0.
    pub(crate) fn new(slots: &'a [E], from: CircularIndex, count: usize) -> Self
        requires fits { from.size ≤ length slots.now }
        requires most { count ≤ from.size }
        ensures { Runs slots.now from.index count from.size result }
    {
        let ahead = count.min(from.size - from.index);
        View {
            first: &slots[from.index..from.index + ahead],
            second: &slots[..count - ahead],
        }
    }

    // The two runs, the older first.
    pub fn parts(&self) -> (&'a [E], &'a [E])
        ensures first { result.0.now ≡ self.now.first.now }
        ensures second { result.1.now ≡ self.now.second.now }
    {
        (self.first, self.second)
    }
}

// By hand: a derive is refused on a generic struct with a ghost field.
impl<'a, E> Clone for View<'a, E> {
    ghost is_clone = { λ view copy. copy ≡ view };

    ghost is_infallible = { λ _. ⊤ };

    fn clone(&self) -> Result<Self, AllocError> {
        Ok(*self)
    }
}

impl<'a, E> Copy for View<'a, E> {}

impl<'a, E: Copy> Source<E> for View<'a, E> {
    ghost use Rattle.storage.specs.Views.{unread};

    ghost means = { unread };

    fn len(&self) -> usize {
        self.first.len() + self.second.len()
    }

    fn next(&mut self) -> Option<E> {
        if let Some(event) = self.first.split_off_first() {
            return Some(*event);
        }
        self.second.split_off_first().copied()
    }
}
