ghost use Rattle.std.specs.Prelude.{◌≡◌, Some, decimal};
ghost use Rattle.source.specs.Faults.{number_of};

use std::error::Error;
use std::fmt;

// Why a call is refused. Each case has a number that users and hosts may rely on.
#[derive(Clone, Copy, PartialEq, Eq, Debug)]
pub enum Fault {
    // opening
    SizeBelowTwo = 1,
    TooManySlots = 2,
    SizeAboveSlots = 3,
    // register
    TooManyReaders = 4,
    // write, read, close
    OtherSlots = 5,
    OtherChannel = 6,
    NotOpen = 7,
    BatchAboveSize = 8,
    GrowthAboveSlots = 9,
    // making a source
    DrainAboveBuffer = 10,
    TooManyLegs = 11,
    // opening again: the issuer has no number left
    OutOfNumbers = 12,
    // script
    MisplacedOpening = 13,
    UnknownMark = 14,
    CutShort = 15,
    OutputFull = 16,
}

impl Fault {
    // The number that hosts rely on, by a name that says so, as a `From<Fault> for u8` would not.
    pub fn number(self) -> u8
        ensures { result ≡ number_of self }
    {
        self as u8
    }
}

// A fault prints as its number, which is what users are shown.
impl fmt::Display for Fault {
    ghost output = { λ f. Some (decimal (number_of f)) };

    fn fmt<W: fmt::Write>(&self, f: &mut fmt::Formatter<W>) -> fmt::Result {
        write!(f, "{}", self.number())
    }
}

impl Error for Fault {}
