ghost use Rattle.std.specs.Prelude.{◌≡◌};
ghost use Rattle.script.specs.Marks.{letters};
ghost use Rattle.script.specs.Parsed.{Marked};

use source::fault::Fault;

// What a record begins with, and the line that answers it.
#[derive(Clone, Copy, PartialEq, Eq, Debug)]
pub enum Mark {
    Opening,
    Register,
    WouldWrite,
    Write,
    Read,
    Close,
}

impl TryFrom<&[u8]> for Mark {
    type Error = Fault;

    ghost try_from_gives = { λ bytes result. Marked bytes.now result };

    fn try_from(bytes: &[u8]) -> Result<Self, Fault> {
        match bytes {
            b"CH" => Ok(Mark::Opening),
            b"RG" => Ok(Mark::Register),
            b"WW" => Ok(Mark::WouldWrite),
            b"WR" => Ok(Mark::Write),
            b"RD" => Ok(Mark::Read),
            b"CL" => Ok(Mark::Close),
            [] | [_] => Err(Fault::CutShort),
            _ => Err(Fault::UnknownMark),
        }
    }
}

impl Mark {
    // Back again, by a method, whose name says what it answers; a `From` has none.
    pub fn letters(self) -> &'static [u8; 2]
        ensures { result.now ≡ letters self }
    {
        match self {
            Mark::Opening => b"CH",
            Mark::Register => b"RG",
            Mark::WouldWrite => b"WW",
            Mark::Write => b"WR",
            Mark::Read => b"RD",
            Mark::Close => b"CL",
        }
    }
}
