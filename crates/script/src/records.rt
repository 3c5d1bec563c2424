ghost use Rattle.std.specs.Prelude.{◌≡◌, Some};
ghost use Rattle.std.specs.Iterator.{at_most};
ghost use Rattle.script.specs.Drawn.{Draws, bytes_left};

use crate::check::ScriptFault;
use crate::record::Record;

// The records of a script in order, each with its place in the whole. A fault ends them. An empty script is looked at too:
// its first record is missing.
#[derive(Drop)]
pub struct Records<'a> {
    script: &'a [u8],
    // where the next record begins, if there is one
    next: Option<usize>,
}

impl<'a> Records<'a> {
    pub fn new(script: &'a [u8]) -> Self
        ensures script { result.script.now ≡ script.now }
        ensures next { result.next ≡ Some 0 }
    {
        Records {
            script,
            next: Some(0),
        }
    }
}

impl<'a> Iterator for Records<'a> {
    type Item = Result<(usize, Record<'a>), ScriptFault>;

    ghost next_gives = { Draws };

    ghost remaining = { λ s. at_most (bytes_left s) };

    // in line: `check` asks only whether there is a record, and a run takes each apart at once
    #[inline(always)]
    fn next(&mut self) -> Option<Self::Item> {
        let at = self.next.take()?;
        // by `match`: a fault is told with its place
        match Record::read(self.script, at) {
            Ok((record, size)) => {
                let end = at + size;
                self.next = (end < self.script.len()).then_some(end);
                Some(Ok((at, record)))
            }
            Err(fault) => Some(Err(ScriptFault { fault, at })),
        }
    }
}
