ghost use Rattle.std.specs.Prelude.{◌≡◌, ◌<◌, ◌≤◌, length, take, MatchResult};
ghost use Rattle.source.specs.Faults.{number_of};

use crate::Source;
use crate::fault::Fault;
use crate::slice::Slice;

// The first events of a buffer. The count that is kept is the length of the part still to draw; the buffer keeps its
// content. A type of its own beside `Slice`, since its making may be refused.
#[derive(Drop)]
pub struct Drain<'a, E> {
    rest: Slice<'a, E>,
}

impl<'a, E: Copy> Drain<'a, E> {
    pub fn new(buffer: &'a [E], count: usize) -> Result<Self, Fault>
        ensures { MatchResult result
            (λ d. (count ≤ length buffer.now) × (d.rest.rest.now ≡ take count buffer.now))
            (λ f. (length buffer.now < count) × (number_of f ≡ 10)) }
    {
        if count > buffer.len() {
            return Err(Fault::DrainAboveBuffer);
        }
        Ok(Drain {
            rest: Slice::new(&buffer[0..count]),
        })
    }
}

impl<'a, E: Copy> Source<E> for Drain<'a, E> {
    ghost means = { λ s. s.rest.rest.now };

    fn len(&self) -> usize {
        self.rest.len()
    }

    fn next(&mut self) -> Option<E> {
        self.rest.next()
    }
}
