ghost use Rattle.std.specs.Prelude.{◌≡◌, ◌-◌};
ghost use Rattle.source.specs.Counting.{up_from};

use crate::Source;
use crate::event::Number;

// The numbers from a start up to but not including an end; none unless the start is below the end. It is copied, as a
// range of std is not.
#[derive(Clone, Copy)]
pub struct Range {
    start: Number,
    end: Number,
}

impl Range {
    pub fn new(start: Number, end: Number) -> Self
        ensures { up_from result.start (result.end - result.start) ≡ up_from start (end - start) }
    {
        Range { start, end }
    }
}

impl Source<Number> for Range {
    ghost means = { λ s. up_from s.start (s.end - s.start) };

    fn len(&self) -> usize {
        self.end.saturating_sub(self.start) as usize
    }

    fn next(&mut self) -> Option<Number> {
        if self.start >= self.end {
            return None;
        }
        let event = self.start;
        self.start += 1;
        Some(event)
    }
}
