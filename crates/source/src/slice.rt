ghost use Rattle.std.specs.Prelude.{◌≡◌};

use crate::Source;

// The events of a supplied slice.
#[derive(Drop)]
pub struct Slice<'a, E> {
    rest: &'a [E],
}

impl<'a, E: Copy> Slice<'a, E> {
    pub fn new(events: &'a [E]) -> Self
        ensures { result.rest.now ≡ events.now }
    {
        Slice { rest: events }
    }
}

impl<'a, E: Copy> Source<E> for Slice<'a, E> {
    ghost means = { λ s. s.rest.now };

    fn len(&self) -> usize {
        self.rest.len()
    }

    fn next(&mut self) -> Option<E> {
        let (event, rest) = self.rest.split_first()?;
        self.rest = rest;
        Some(*event)
    }
}
