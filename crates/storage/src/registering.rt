ghost use Rattle.std.specs.Prelude.{◌≡◌, List};
ghost use Rattle.ledger.specs.Ledger.{outcome, would_write};
ghost use Rattle.ledger.specs.Ledger.Call.{register, close as closing};
ghost use Rattle.storage.specs.Calls.{SameButReaders, Unchanged};
ghost use Rattle.storage.specs.Ledgers.{ledger_of, registers, closes};

use crate::ring::RingBuffer;
use source::fault::Fault;

impl<E> RingBuffer<E> {
    // A reader that receives the events written from now on. Answers its number.
    pub fn new_reader_id(&mut self) -> Result<usize, Fault>
        ensures ledger { (slots : List E) → (registers result, ledger_of self.new slots) ≡ outcome (ledger_of self.old slots) register }
        ensures rest { SameButReaders self.old self.new }
        ensures refused { Unchanged result self.old self.new }
    {
        if self.meta.is_full() {
            return Err(Fault::TooManyReaders);
        }
        let last = self.last.index;
        let generation = self.generation;
        Ok(self.meta.alloc(last, generation))
    }

    // The reader's number is free again, and its unread events are gone.
    pub fn close(&mut self, number: usize) -> Result<(), Fault>
        ensures ledger { (slots : List E) → (closes result, ledger_of self.new slots) ≡ outcome (ledger_of self.old slots) (closing self.old.instance number) }
        ensures rest { SameButReaders self.old self.new }
        ensures refused { Unchanged result self.old self.new }
    {
        self.meta.reader(number).ok_or(Fault::NotOpen)?;
        self.meta.remove(number);
        Ok(())
    }

    // Whether a write would reach anybody.
    pub fn would_write(&self) -> bool
        ensures { (slots : List E) → result ≡ would_write (ledger_of self.now slots) }
    {
        self.meta.has_reader()
    }
}
