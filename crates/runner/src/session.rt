ghost use Rattle.std.specs.Prelude.{◌≡◌};
ghost use Rattle.ledger.specs.Ledger.{fresh};
ghost use Rattle.script.specs.declared.mark.Mark.TheVariants as mark;
ghost use Rattle.script.specs.Lines.{rendered, Put};
ghost use Rattle.script.specs.Parsed.{meant};
ghost use Rattle.script.specs.Records.{numbers};
ghost use Rattle.script.specs.Records.Record.{register as registering, write as writing, read as reading, close as closing};
ghost use Rattle.storage.specs.Ledgers.{ledger_of};
ghost use Rattle.runner.specs.Calls.{ledger_in, shown_by};
ghost use Rattle.runner.specs.Sessions.{answered};

use script::line::Line;
use script::mark::Mark;
use script::record::{Numbers, Record};
use source::event::Number;
use source::fault::Fault;
use storage::grant::Grant;
use storage::ring::RingBuffer;

// The slots of a script's channel.
pub(crate) const SLOTS: usize = 1024;

// A script's channel: its ring, and the slots that hold its events.
#[derive(Drop)]
pub(crate) struct Session {
    ring: RingBuffer<Number>,
    slots: [Number; SLOTS],
}

impl Session {
    pub(crate) fn new(grant: Grant) -> Self
        ensures { ledger_in result ≡ fresh grant.instance grant.size grant.slots }
    {
        Session {
            ring: RingBuffer::new(grant),
            slots: [0; SLOTS],
        }
    }

    fn register(&mut self) -> Result<Line<'static>, Fault>
        ensures { (shown_by mark.Register result, ledger_in self.new) ≡ answered (ledger_in self.old) registering }
    {
        let reader = self.ring.new_reader_id()?;
        Ok(Line::Registered { reader })
    }

    fn write(&mut self, events: &mut Numbers<'_>) -> Result<Line<'static>, Fault>
        ensures { (shown_by mark.Write result, ledger_in self.new) ≡ answered (ledger_in self.old) (writing (numbers events.old.bytes.now)) }
    {
        let written = self.ring.iter_write(&mut self.slots, events)?;
        Ok(Line::Wrote {
            count: written.count,
            size: written.size,
        })
    }

    fn close(&mut self, reader: usize) -> Result<Line<'static>, Fault>
        ensures { (shown_by mark.Close result, ledger_in self.new) ≡ answered (ledger_in self.old) (closing reader) }
    {
        self.ring.close(reader)?;
        Ok(Line::Closed { reader })
    }

    // Carries out one record and writes its line from the place `at` on, as `Line::put` takes output and place. Answers the
    // place after it; a line that does not fit leaves no byte behind, though its call is made.
    pub(crate) fn step(
        &mut self,
        record: Record<'_>,
        out: &mut [u8],
        at: usize,
    ) -> Result<usize, Fault>
        ensures ledger { ledger_in self.new ≡ (answered (ledger_in self.old) (meant «record».entry)).1 }
        ensures line { Put out.old at (rendered (answered (ledger_in self.old) (meant «record».entry)).0) out.new result }
    {
        // one `match` for all: a script is data, since the theorems speak of every script
        match record {
            // never reached: a second opening is a fault of the script
            Record::Opening { size } => {
                let size = usize::from(size);
                put(Mark::Opening, Ok(Line::Opened { size }), out, at)
            }
            Record::Register => put(Mark::Register, self.register(), out, at),
            Record::WouldWrite => {
                let line = Line::WouldWrite(self.ring.would_write());
                put(Mark::WouldWrite, Ok(line), out, at)
            }
            Record::Write(mut events) => put(Mark::Write, self.write(&mut events), out, at),
            Record::Read { reader } => {
                let answer = read(&mut self.ring, &self.slots, usize::from(reader));
                put(Mark::Read, answer, out, at)
            }
            Record::Close { reader } => {
                put(Mark::Close, self.close(usize::from(reader)), out, at)
            }
        }
    }
}

// No method of the session: a line that borrows from the slots would leave nothing to say of the ring after the call.
fn read<'a>(
    ring: &mut RingBuffer<Number>,
    slots: &'a [Number; SLOTS],
    reader: usize,
) -> Result<Line<'a>, Fault>
    ensures { (shown_by mark.Read result, ledger_of ring.new slots.now) ≡ answered (ledger_of ring.old slots.now) (reading reader) }
{
    let (first, second) = ring.read(slots, reader)?.parts();
    Ok(Line::Handed {
        reader,
        first,
        second,
    })
}

// Writes a call's line, or that of its refusal. A `match`, since `unwrap_or_else` takes no closure that makes a line with a
// lifetime.
fn put(
    mark: Mark,
    answer: Result<Line<'_>, Fault>,
    out: &mut [u8],
    at: usize,
) -> Result<usize, Fault>
    ensures { Put out.old at (rendered (shown_by mark answer.entry)) out.new result }
{
    let line = match answer {
        Ok(line) => line,
        Err(fault) => Line::Refused { mark, fault },
    };
    line.put(out, at)
}
