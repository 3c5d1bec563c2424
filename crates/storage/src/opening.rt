ghost use Rattle.std.specs.Prelude.{◌≡◌, ◌-◌, List};
ghost use Rattle.ledger.specs.Ledger.{fresh};
ghost use Rattle.storage.specs.Ledgers.{ledger_of};

use crate::circular::CircularIndex;
use crate::grant::Grant;
use crate::reader::ReaderMeta;
use crate::ring::RingBuffer;
use std::marker::PhantomData;

impl<E> RingBuffer<E> {
    // A ring without events and readers. Its first event goes to place 0.
    pub fn new(grant: Grant) -> Self
        ensures ledger { (slots : List E) → ledger_of result slots ≡ fresh grant.instance grant.size grant.slots }
        ensures available { result.available ≡ grant.size }
        ensures last { result.last.index ≡ grant.size - 1 }
        ensures size { result.last.size ≡ grant.size }
        ensures generation { result.generation ≡ 0 }
    {
        RingBuffer {
            available: grant.size,
            last: CircularIndex::at_end(grant.size),
            slots: grant.slots,
            generation: 0,
            instance: grant.instance,
            meta: ReaderMeta::new(),
            kind: PhantomData,
        }
    }

    pub fn instance(&self) -> u32
        ensures { result ≡ self.now.instance }
    {
        self.instance
    }

    // The count of slots that the ring was opened with.
    pub fn slot_count(&self) -> usize
        ensures { result ≡ self.now.slots }
    {
        self.slots
    }

    // How many of the slots are in use.
    pub fn size(&self) -> usize
        ensures { result ≡ self.now.last.size }
    {
        self.last.size
    }
}
