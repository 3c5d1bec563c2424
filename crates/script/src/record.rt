ghost use Rattle.std.specs.Prelude.{◌≡◌};
ghost use Rattle.script.specs.Parsed.{read_out};
ghost use Rattle.script.specs.Records.{body, numbers, record_of, size_of};

use crate::mark::Mark;
use source::Source;
use source::event::Number;
use source::fault::Fault;

// The numbers of a write, big-endian, as they stand in the script.
#[derive(Drop)]
pub struct Numbers<'a> {
    bytes: &'a [u8],
}

impl<'a> Source<Number> for Numbers<'a> {
    ghost means = { λ s. numbers s.bytes.now };

    fn len(&self) -> usize {
        self.bytes.len() / 4
    }

    fn next(&mut self) -> Option<Number> {
        let (number, rest) = self.bytes.split_first_chunk::<4>()?;
        self.bytes = rest;
        Some(Number::from_be_bytes(*number))
    }
}

// One call of a script.
#[derive(Drop)]
pub enum Record<'a> {
    Opening { size: u16 },
    Register,
    WouldWrite,
    Write(Numbers<'a>),
    Read { reader: u8 },
    Close { reader: u8 },
}

// Length and content of a record are found one after another: the length is held against the bytes before they are read.

// How many bytes a record with this mark has. A write without its count is longer than the bytes, whatever the count.
fn size(mark: Mark, bytes: &[u8]) -> usize
    ensures { result ≡ size_of mark bytes.now }
{
    match mark {
        Mark::Register | Mark::WouldWrite => 2,
        Mark::Read | Mark::Close => 3,
        Mark::Opening => 4,
        Mark::Write => 3 + 4 * usize::from(bytes.get(2).copied().unwrap_or(0)),
    }
}

impl<'a> Record<'a> {
    // The record that begins with this mark, and its length.
    fn body(mark: Mark, bytes: &'a [u8]) -> Result<(Self, usize), Fault>
        ensures { read_out result ≡ body mark bytes.now }
    {
        let size = size(mark, bytes);
        if bytes.len() < size {
            return Err(Fault::CutShort);
        }
        let record = match mark {
            Mark::Opening => Record::Opening {
                size: u16::from_be_bytes([bytes[2], bytes[3]]),
            },
            Mark::Register => Record::Register,
            Mark::WouldWrite => Record::WouldWrite,
            Mark::Write => Record::Write(Numbers {
                bytes: &bytes[3..size],
            }),
            Mark::Read => Record::Read { reader: bytes[2] },
            Mark::Close => Record::Close { reader: bytes[2] },
        };
        Ok((record, size))
    }

    // The record at a place of the script, and its length. The first record is the one at place 0; past the end there are
    // no bytes. Script and place are two parameters, since a fault names its place in the whole.
    pub fn read(script: &'a [u8], at: usize) -> Result<(Self, usize), Fault>
        ensures { read_out result ≡ record_of script.now at }
    {
        let bytes = &script[at.min(script.len())..];
        let start = &bytes[0..bytes.len().min(2)];
        let opens = start == b"CH".as_slice();
        if opens != (at == 0) {
            return Err(Fault::MisplacedOpening);
        }
        Record::body(Mark::try_from(start)?, bytes)
    }
}
