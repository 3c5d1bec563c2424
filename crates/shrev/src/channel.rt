ghost use Rattle.std.specs.Prelude.{◌≡◌, List, [], ◌∷◌, length};
ghost use Rattle.ledger.specs.Ledger.{fresh, outcome, would_write};
ghost use Rattle.ledger.specs.Ledger.Call.{register, write, read as reading, close as closing};
ghost use Rattle.shrev.specs.Channels.{ledger_of, registers, closes, Unchanged, Registered, HandedBack};
ghost use Rattle.storage.specs.Calls.{SameButReaders, ReadsRuns};
ghost use Rattle.storage.specs.Ledgers.{hands};
ghost use Rattle.storage.specs.Writes.{Stores, Draws, writes};

use crate::id::ReaderId;
use source::Source;
use source::drain::Drain;
use source::fault::Fault;
use std::marker::PhantomData;
use storage::grant::Grant;
use storage::ring::RingBuffer;
use storage::view::View;
use storage::written::Written;

// A single producer, multiple consumer channel over slots that the caller supplies: every reader receives every event
// that was accepted since its last read or its registration, once and in order.
#[derive(Drop)]
pub struct EventChannel<E> {
    ring: RingBuffer<E>,
}

// Ring and channel both have shrev's calls, so each of these hands on to the ring's.
impl<E> EventChannel<E> {
    // The one channel that the grant allows.
    pub fn new(grant: Grant) -> Self
        ensures { (slots : List E) → ledger_of result slots ≡ fresh grant.instance grant.size grant.slots }
    {
        EventChannel {
            ring: RingBuffer::new(grant),
        }
    }

    pub fn instance(&self) -> u32
        ensures { result ≡ self.now.ring.instance }
    {
        self.ring.instance()
    }

    pub fn slot_count(&self) -> usize
        ensures { result ≡ self.now.ring.slots }
    {
        self.ring.slot_count()
    }

    pub fn size(&self) -> usize
        ensures { result ≡ self.now.ring.last.size }
    {
        self.ring.size()
    }

    // Whether any reader would observe an additional event.
    pub fn would_write(&self) -> bool
        ensures { (slots : List E) → result ≡ would_write (ledger_of self.now slots) }
    {
        self.ring.would_write()
    }

    // A new reader, which receives the events written after this.
    pub fn register_reader(&mut self) -> Result<ReaderId<E>, Fault>
        ensures ledger { (slots : List E) → (registers result, ledger_of self.new slots) ≡ outcome (ledger_of self.old slots) register }
        ensures rest { SameButReaders self.old.ring self.new.ring }
        ensures id { Registered result self.old self.new }
    {
        let number = self.ring.new_reader_id()?;
        Ok(ReaderId {
            instance: self.instance(),
            number,
            kind: PhantomData,
        })
    }

    // Closes the reader. Refused, it hands the id back.
    pub fn close(&mut self, id: ReaderId<E>) -> Result<(), (Fault, ReaderId<E>)>
        ensures ledger { (slots : List E) → (closes result, ledger_of self.new slots) ≡ outcome (ledger_of self.old slots) (closing id.instance id.number) }
        ensures rest { SameButReaders self.old.ring self.new.ring }
        ensures refused { HandedBack result id self.old self.new }
    {
        if id.instance != self.instance() {
            return Err((Fault::OtherChannel, id));
        }
        // no `?`: the id goes back with the refusal
        if let Err(fault) = self.ring.close(id.number) {
            return Err((fault, id));
        }
        let _number = id.give_up();
        Ok(())
    }

    // The events accepted since the reader's last read, or since its registration.
    pub fn read<'a>(&mut self, slots: &'a [E], id: &mut ReaderId<E>) -> Result<View<'a, E>, Fault>
        ensures ledger { (hands result, ledger_of self.new slots.now) ≡ outcome (ledger_of self.old slots.now) (reading (length slots.now) id.old.instance id.old.number) }
        ensures rest { SameButReaders self.old.ring self.new.ring }
        ensures refused { Unchanged result self.old self.new }
        ensures runs { ReadsRuns result self.old.ring slots.now id.old.number }
        ensures id { id.new ≡ id.old }
    {
        if slots.len() != self.slot_count() {
            return Err(Fault::OtherSlots);
        }
        if id.instance != self.instance() {
            return Err(Fault::OtherChannel);
        }
        self.ring.read(slots, id.number)
    }
}

// The writes, each by the ring's of the same name.
impl<E: Copy> EventChannel<E> {
    // Writes all events of a source.
    pub fn iter_write<S: Source<E>>(
        &mut self,
        slots: &mut [E],
        source: &mut S,
    ) -> Result<Written, Fault>
        ensures ledger { (writes result, ledger_of self.new slots.new) ≡ outcome (ledger_of self.old slots.old) (write (length slots.old) (S.Source.means source.old)) }
        ensures stored { Stores result self.old.ring self.new.ring slots.old slots.new (S.Source.means source.old) }
        ensures source { Draws S.Source.means S.Source.beneath result source.old source.new }
    {
        self.ring.iter_write(slots, source)
    }

    // Writes the events of a drain.
    pub fn drain_vec_write(
        &mut self,
        slots: &mut [E],
        drain: &mut Drain<'_, E>,
    ) -> Result<Written, Fault>
        ensures ledger { (writes result, ledger_of self.new slots.new) ≡ outcome (ledger_of self.old slots.old) (write (length slots.old) drain.old.rest.rest.now) }
        ensures stored { Stores result self.old.ring self.new.ring slots.old slots.new drain.old.rest.rest.now }
        ensures source { Draws (λ d. d.rest.rest.now) (λ _. []) result drain.old drain.new }
    {
        self.ring.drain_vec_write(slots, drain)
    }

    // Writes one event.
    pub fn single_write(&mut self, slots: &mut [E], event: E) -> Result<Written, Fault>
        ensures ledger { (writes result, ledger_of self.new slots.new) ≡ outcome (ledger_of self.old slots.old) (write (length slots.old) (event ∷ [])) }
        ensures stored { Stores result self.old.ring self.new.ring slots.old slots.new (event ∷ []) }
    {
        self.ring.single_write(slots, event)
    }
}
