ghost use Rattle.std.specs.Prelude.{◌≡◌, ℕ, ◌+◌, ◌-◌, ◌<◌, ◌≤◌, ◌↔◌, List, [], ◌∷◌, map, length, replicate, Some, None, Option, option_map, IsTrue, slice_set};
ghost use Rattle.std.proofs.Props.{props};
ghost use Rattle.storage.specs.Freed.{stack};
ghost use Rattle.storage.specs.Kept.{Places};
ghost use Rattle.storage.specs.Registry.{most, entry, fresh, lives, distance, unread, needs_shift, shifted, Live, Numbered, Stack, Apart, Nearest};

use crate::circular::CircularIndex;
use crate::freed::Freed;

// How many readers may be open at a time.
pub const READERS: usize = 64;

// What the ring knows of a reader: the place of the last event that it read, and the ring's generation then.
#[derive(Clone, Copy)]
pub struct Reader {
    pub(crate) place: usize,
    pub(crate) generation: u64,
}

// The open readers, by number. Each number ever used is open or freed.
#[derive(Clone, Copy)]
pub struct ReaderMeta {
    pub(crate) readers: [Option<Reader>; READERS],
    pub(crate) free: Freed,
    // how many numbers were ever used, beside a table that lies in fixed memory
    pub(crate) used: usize,
    ghost long: { length readers ≡ most },
    ghost few: { used ≤ most },
    ghost whole: { lives readers + length (stack free) ≡ used },
    ghost numbered: { Numbered readers used },
    ghost stacked: { Stack readers (stack free) used } by { Prim.hlevel props },
    ghost apart: { Apart (stack free) } by { Prim.hlevel props },
}

// A place and a generation are two parameters, as in shrev: they are two fields of the ring, and a struct of both would be
// made anew at each call.
impl Reader {
    pub(crate) fn distance_from(&self, last: CircularIndex, generation: u64) -> usize
        requires { self.now.place < last.size }
        ensures { result ≡ distance last.index last.size generation self.now }
    {
        let this = CircularIndex::new(self.place, last.size);
        match this.sub(last.index) {
            0 if self.generation == generation => last.size,
            gap => gap,
        }
    }

    // How many events wait: the whole ring where only the generations differ.
    pub(crate) fn unread_from(&self, last: CircularIndex, generation: u64) -> usize
        requires { self.now.place < last.size }
        ensures { result ≡ unread last.index last.size generation self.now }
    {
        if self.generation == generation {
            return 0;
        }
        match last.sub(self.place) {
            0 => last.size,
            gap => gap,
        }
    }

    pub(crate) fn needs_shift(&self, last: usize, generation: u64) -> bool
        ensures { result ≡ needs_shift last generation self.now }
    {
        self.place > last || (self.place == last && self.generation != generation)
    }
}

impl ReaderMeta {
    ghost use Rattle.storage.specs.Meta.{HasParts, Opened};

    pub(crate) fn new() -> Self
        ensures { HasParts result (replicate most None) [] 0 }
    {
        ReaderMeta {
            readers: [None; READERS],
            free: Freed::new(),
            used: 0,
        }
    }

    // The reader of a number. None where nobody has it open.
    pub(crate) fn reader(&self, number: usize) -> Option<Reader>
        ensures { result ≡ entry self.now.readers number }
    {
        *self.readers.get(number)?
    }

    pub(crate) fn has_reader(&self) -> bool
        ensures { IsTrue result ↔ ((k : ℕ) × Live self.now.readers k) }
    {
        self.readers.iter().any(|reader| reader.is_some())
    }

    // Every number is open.
    pub(crate) fn is_full(&self) -> bool
        ensures { IsTrue result ↔ (lives self.now.readers ≡ most) }
    {
        self.free.is_empty() && self.used == READERS
    }

    // The last freed number, else the next unused one. Its reader has read everything up to the place.
    pub(crate) fn alloc(&mut self, place: usize, generation: u64) -> usize
        requires { lives self.old.readers < most }
        ensures { Opened self.old self.new (fresh place generation) result }
    {
        let id = match self.free.pop() {
            Some(id) => id,
            None => {
                self.used += 1;
                self.used - 1
            }
        };
        self.readers[id] = Some(Reader { place, generation });
        id
    }

    pub(crate) fn remove(&mut self, id: usize)
        requires { Live self.old.readers id }
        ensures { HasParts self.new (slice_set self.old.readers id None) (id ∷ stack self.old.free) self.old.used }
    {
        self.readers[id] = None;
        self.free.push(id);
    }

    // The reader has read everything up to the place.
    pub(crate) fn advance(&mut self, id: usize, place: usize, generation: u64)
        requires { Live self.old.readers id }
        ensures { HasParts self.new (slice_set self.old.readers id (Some (fresh place generation))) (stack self.old.free) self.old.used }
    {
        if let Some(reader) = &mut self.readers[id] {
            reader.place = place;
            reader.generation = generation;
        }
    }

    // The number of the open reader of least distance: of equals the first stays. A loop over the entries with their
    // index shows both; this form is a rule of the project. Out of line: in line, the compiler tests every entry where a
    // caller begins to write, whether the readers need be looked at or not.
    #[inline(never)]
    pub(crate) fn nearest_index(&self, last: CircularIndex, generation: u64) -> Option<usize>
        requires { Places self.now.readers last.size }
        ensures { Nearest (distance last.index last.size generation) self.now.readers most result }
    {
        let mut nearest: Option<(usize, usize)> = None;
        for (id, entry) in self.readers.iter().enumerate() {
            if let Some(reader) = entry {
                let distance = reader.distance_from(last, generation);
                nearest = match nearest {
                    Some((_, least)) if least <= distance => nearest,
                    _ => Some((id, distance)),
                };
            }
        }
        nearest.map(|(id, _)| id)
    }

    // Growth by `by` moves what lies above the last place, and the readers with it. The loop tests each entry, and does not
    // go over `iter_mut().flatten()`: of what is written through that adapter a proof knows nothing.
    pub(crate) fn shift(&mut self, last: usize, generation: u64, by: usize)
        requires { Places self.old.readers (1048576 - by) }
        ensures { HasParts self.new (map (option_map (shifted last generation by)) self.old.readers) (stack self.old.free) self.old.used }
    {
        for entry in &mut self.readers {
            if let Some(reader) = entry {
                if reader.needs_shift(last, generation) {
                    reader.place += by;
                }
            }
        }
    }
}
