ghost use Rattle.std.specs.Prelude.{◌≡◌, List, [], ◌∷◌};
ghost use Rattle.std.specs.Option.{option_to_list};

use crate::Source;

// One event.
#[derive(Clone, Copy)]
pub struct Single<E> {
    event: Option<E>,
}

impl<E: Copy> Single<E> {
    pub fn new(event: E) -> Self
        ensures { option_to_list result.event ≡ event ∷ [] }
    {
        Single { event: Some(event) }
    }
}

impl<E: Copy> Source<E> for Single<E> {
    ghost means = { λ s. option_to_list s.event };

    fn len(&self) -> usize {
        usize::from(self.event.is_some())
    }

    fn next(&mut self) -> Option<E> {
        self.event.take()
    }
}
