ghost use Rattle.std.specs.Prelude.{◌≡◌};
ghost use Rattle.storage.specs.Openings.{Opens, default_size};

use crate::grant::Grant;
use source::fault::Fault;

// The size of a channel that nobody asked a size for.
pub const DEFAULT_CAPACITY: usize = 64;

// The most slots that a channel may have.
pub const MOST_SLOTS: usize = 1_048_576;

// Gives out grants, each under an instance number of its own.
#[derive(Drop)]
pub struct Issuer {
    // the next number; past the largest one when all are given out, which the rule of openings takes as a number too
    next: u64,
}

impl Issuer {
    // Its first grant has the number `start`.
    pub fn new(start: u32) -> Issuer
        ensures { result.next ≡ start }
    {
        Issuer {
            next: u64::from(start),
        }
    }

    // A grant for a channel of the given size over so many slots.
    pub fn open(&mut self, size: usize, slots: usize) -> Result<Grant, Fault>
        ensures { Opens result self.old self.new size slots }
    {
        if size < 2 {
            return Err(Fault::SizeBelowTwo);
        }
        if slots > MOST_SLOTS {
            return Err(Fault::TooManySlots);
        }
        if size > slots {
            return Err(Fault::SizeAboveSlots);
        }
        let instance = u32::try_from(self.next).map_err(|_| Fault::OutOfNumbers)?;
        self.next += 1;
        Ok(Grant {
            instance,
            size,
            slots,
        })
    }

    // The same with the default size, as shrev's `new` beside `with_capacity`.
    pub fn open_default(&mut self, slots: usize) -> Result<Grant, Fault>
        ensures { Opens result self.old self.new default_size slots }
    {
        self.open(DEFAULT_CAPACITY, slots)
    }
}
