ghost use Rattle.std.specs.Prelude.{◌≡◌, length};
ghost use Rattle.ledger.specs.Ledger.{outcome};
ghost use Rattle.ledger.specs.Ledger.Call.{read as reading};
ghost use Rattle.storage.specs.Calls.{SameButReaders, Unchanged, ReadsRuns};
ghost use Rattle.storage.specs.Ledgers.{ledger_of, hands};

use crate::circular::CircularIndex;
use crate::ring::RingBuffer;
use crate::view::View;
use source::fault::Fault;

impl<E> RingBuffer<E> {
    // The events that the reader has not read, oldest first. It has read them then.
    pub fn read<'a>(&mut self, slots: &'a [E], number: usize) -> Result<View<'a, E>, Fault>
        ensures ledger { (hands result, ledger_of self.new slots.now) ≡ outcome (ledger_of self.old slots.now) (reading (length slots.now) self.old.instance number) }
        ensures rest { SameButReaders self.old self.new }
        ensures refused { Unchanged result self.old self.new }
        ensures runs { ReadsRuns result self.old slots.now number }
    {
        if slots.len() != self.slots {
            return Err(Fault::OtherSlots);
        }
        let reader = self.meta.reader(number).ok_or(Fault::NotOpen)?;
        let last = self.last;
        let from = CircularIndex::new(reader.place, last.size).step();
        let count = reader.unread_from(last, self.generation);
        self.meta.advance(number, last.index, self.generation);
        Ok(View::new(slots, from, count))
    }
}
