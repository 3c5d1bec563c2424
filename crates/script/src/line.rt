ghost use Rattle.std.specs.Prelude.{◌≡◌, ◌+◌, ◌≤◌, length, is_some, nat_le};
ghost use Rattle.script.specs.Lines.{answering, fields, rendered, shown, spaced, Put};
ghost use Rattle.script.specs.Written.{Writes};
ghost use Rattle.script.specs.Telling.{OneFeed, LineTells, LinesTell};

use crate::cursor::Cursor;
use crate::events::room_after;
use crate::mark::Mark;
use crate::number::digits;
use source::fault::Fault;

// A call's answer, which becomes one line. The events of a read come in two runs.
#[derive(Clone, Copy)]
pub enum Line<'a> {
    Opened {
        size: usize,
    },
    Registered {
        reader: usize,
    },
    WouldWrite(bool),
    Wrote {
        count: usize,
        size: usize,
    },
    Handed {
        reader: usize,
        first: &'a [u32],
        second: &'a [u32],
    },
    Closed {
        reader: usize,
    },
    // a refused call has its line as any other: the run goes on behind it
    Refused {
        mark: Mark,
        fault: Fault,
    },
}

impl<'a> Line<'a> {
    pub fn mark(self) -> Mark
        ensures { result ≡ answering (shown self.entry) }
    {
        match self {
            Line::Opened { .. } => Mark::Opening,
            Line::Registered { .. } => Mark::Register,
            Line::WouldWrite(_) => Mark::WouldWrite,
            Line::Wrote { .. } => Mark::Write,
            Line::Handed { .. } => Mark::Read,
            Line::Closed { .. } => Mark::Close,
            Line::Refused { mark, .. } => mark,
        }
    }

    // Whether the line has room in so many bytes.
    fn fits(self, room: usize) -> bool
        ensures { result ≡ nat_le (length (rendered (shown self.entry))) room }
    {
        match self {
            Line::Opened { size } => 4 + digits(size) <= room,
            Line::Registered { reader } => 4 + digits(reader) <= room,
            Line::WouldWrite(_) => 5 <= room,
            Line::Wrote { count, size } => 5 + digits(count) + digits(size) <= room,
            Line::Handed {
                reader,
                first,
                second,
            } => room_after_runs(room, 5 + digits(reader), first, second).is_some(),
            Line::Closed { reader } => 4 + digits(reader) <= room,
            Line::Refused { fault, .. } => 7 + digits(fault.number() as usize) <= room,
        }
    }

    // Writes what stands between the mark's space and the line feed. In line, as what it calls is.
    #[inline(always)]
    fn put_fields(self, cursor: &mut Cursor<'_>)
        requires { cursor.old.at + length (fields (shown self)) ≤ length cursor.old.out.now }
        ensures { Writes cursor.old cursor.new (fields (shown self.entry)) }
    {
        match self {
            Line::Opened { size } => cursor.number(size),
            Line::Registered { reader } | Line::Closed { reader } => cursor.number(reader),
            Line::WouldWrite(yes) => cursor.number(usize::from(yes)),
            Line::Wrote { count, size } => {
                cursor.number(count);
                cursor.byte(b' ');
                cursor.number(size);
            }
            Line::Handed {
                reader,
                first,
                second,
            } => {
                cursor.number(reader);
                cursor.byte(b':');
                cursor.events(first);
                cursor.events(second);
            }
            Line::Refused { fault, .. } => {
                cursor.text(b"no ");
                cursor.number(usize::from(fault.number()));
            }
        }
    }

    // Writes the line from the place `at` on and answers the place after it. Its length is held against the room first,
    // so that a line which doesn't fit leaves no byte behind.
    // Output and place are two parameters: each line starts at another place of what a host hands in.
    // No `Display`: its contract says what `fmt` wrote where it answers Ok, and nothing of an Err, which this has to.
    pub fn put(self, out: &mut [u8], at: usize) -> Result<usize, Fault>
        ensures { Put out.old at (rendered (shown self.entry)) out.new result }
    {
        if at > out.len() || !self.fits(out.len() - at) {
            return Err(Fault::OutputFull);
        }
        let mut cursor = Cursor { out, at };
        cursor.text(self.mark().letters());
        cursor.byte(b' ');
        self.put_fields(&mut cursor);
        cursor.byte(b'\n');
        Ok(cursor.at)
    }
}

// What is left of so many bytes once these many and the events of both runs stand in them; none where they don't fit.
fn room_after_runs(room: usize, width: usize, first: &[u32], second: &[u32]) -> Option<usize>
    ensures { is_some result ≡ nat_le (width + (length (spaced first.now) + length (spaced second.now))) room }
{
    let left = room.checked_sub(width)?;
    let left = room_after(left, first)?;
    room_after(left, second)
}

// The output can be read back. Nothing is computed; the statements are proved for every answer.
pub fn lines_tell_answers()
    ensures feed { OneFeed }
    ensures one { LineTells }
    ensures all { LinesTell }
{}
