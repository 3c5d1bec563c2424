ghost use Rattle.std.specs.Prelude.{◌≡◌, ◌≤◌, length, IfSome};
ghost use Rattle.std.specs.Result.{result_err};
ghost use Rattle.ledger.specs.Ledger.{fresh};
ghost use Rattle.runner.specs.Runs.{Runs, Carries};

use crate::session::{SLOTS, Session};
use script::check::{ScriptFault, check};
use script::line::Line;
use script::mark::Mark;
use script::record::Record;
use script::records::Records;
use storage::grant::Grant;
use storage::util::Issuer;

// How many bytes of the output are finished lines, and why there are no more, if there should be.
#[derive(Clone, Copy, PartialEq, Eq, Debug)]
pub struct Ran {
    pub written: usize,
    pub fault: Option<ScriptFault>,
}

// Carries out the records that are left, on the channel that the grant allows, and writes their lines behind those that
// are written already. Output and count are two parameters, as `Line::put` takes them: in a struct they would be taken
// out and put back for every line.
fn carry_on(
    records: Records<'_>,
    grant: Grant,
    out: &mut [u8],
    written: &mut usize,
) -> Result<(), ScriptFault>
    requires within { IfSome records.next (λ at. at ≤ length records.script.now) }
    requires room { written.old ≤ length out.old }
    ensures { Carries records.entry.script.now records.entry.next (fresh grant.instance grant.size grant.slots) out.old written.old out.new (record { written = written.new; fault = result_err result }) }
{
    let mut session = Session::new(grant);
    for found in records {
        let (at, record) = found?;
        let end = session
            .step(record, out, *written)
            .map_err(|full| ScriptFault { fault: full, at })?;
        *written = end;
    }
    Ok(())
}

// Checks the script, and carries out its first record, which opens the channel, and then the others. A refused opening
// has its line, and the run ends with that. Script and output are the two that a host hands in.
fn begin(script: &[u8], out: &mut [u8], written: &mut usize) -> Result<(), ScriptFault>
    requires { written.old ≡ 0 }
    ensures { Runs script.now out.old out.new (record { written = written.new; fault = result_err result }) }
{
    check(script)?;
    let mut records = Records::new(script);
    // never otherwise: even an empty script has a first record
    let Some(first) = records.next() else {
        return Ok(());
    };
    let (at, opening) = first?;
    // never otherwise: a script that begins with another record is faulty
    let Record::Opening { size } = opening else {
        return Ok(());
    };
    let size = usize::from(size);
    match Issuer::new(0).open(size, SLOTS) {
        Ok(grant) => {
            *written = Line::Opened { size }
                .put(out, 0)
                .map_err(|fault| ScriptFault { fault, at })?;
            carry_on(records, grant, out, written)
        }
        Err(fault) => {
            let mark = Mark::Opening;
            *written = Line::Refused { mark, fault }
                .put(out, 0)
                .map_err(|fault| ScriptFault { fault, at })?;
            Ok(())
        }
    }
}

// Runs a script. Its lines go into the output from the start; what lies behind them stays as it is.
pub fn run(script: &[u8], out: &mut [u8]) -> Ran
    ensures ran { Runs script.now out.old out.new result }
    ensures within { result.written ≤ length out.old }
{
    let mut written = 0;
    let fault = begin(script, out, &mut written).err();
    Ran { written, fault }
}
