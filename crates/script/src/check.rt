ghost use Rattle.std.specs.Prelude.{◌++◌, Some, codes, decimal};
ghost use Rattle.source.specs.Faults.{number_of};
ghost use Rattle.script.specs.Known.{KnownFaults, KnownLines};
ghost use Rattle.script.specs.Parsed.{Checked};
ghost use Rattle.script.specs.Spelling.{ReadsBack};

use crate::records::Records;
use source::fault::Fault;
use std::fmt;

// What is wrong with a script, and where the faulty record begins.
#[derive(Clone, Copy, PartialEq, Eq, Debug)]
pub struct ScriptFault {
    pub fault: Fault,
    pub at: usize,
}

impl fmt::Display for ScriptFault {
    ghost output = { λ f. Some (codes "fault " ++ decimal (number_of f.fault) ++ codes " at " ++ decimal f.at) };

    fn fmt<W: fmt::Write>(&self, f: &mut fmt::Formatter<W>) -> fmt::Result {
        write!(f, "fault {} at {}", self.fault, self.at)
    }
}

// Looks at every record before any is carried out. An empty script is looked at too: its first record is missing.
pub fn check(script: &[u8]) -> Result<(), ScriptFault>
    ensures { Checked script.now result }
{
    for record in Records::new(script) {
        record?;
    }
    Ok(())
}

// Every list of records that begins with its only opening can be written as a script, which means that list. Nothing is
// computed; the statement is proved for every list, and the known scripts and lines besides.
pub fn scripts_tell_records()
    ensures back { ReadsBack }
    ensures faults { KnownFaults }
    ensures lines { KnownLines }
{}
