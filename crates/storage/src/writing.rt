ghost use Rattle.std.specs.Prelude.{◌≡◌, ◌+◌, ◌-◌, ◌%◌, ◌^◌, ◌<◌, ◌≤◌, [], ◌∷◌, ◌++◌, map, length, MatchOption};
ghost use Rattle.ledger.specs.Ledger.{outcome, size_for};
ghost use Rattle.ledger.specs.Ledger.Call.{write};
ghost use Rattle.storage.specs.Kept.{Ahead};
ghost use Rattle.storage.specs.Registry.{most, distance, Nearest};
ghost use Rattle.storage.specs.Ledgers.{ledger_of};
ghost use Rattle.storage.specs.Slots.{grown, stored, last_after};
ghost use Rattle.storage.specs.Writes.{with_size, with_joined, Ensured, Stores, Draws, writes};

use crate::data::{grow, put_all};
use crate::ring::RingBuffer;
use crate::written::Written;
use source::Source;
use source::drain::Drain;
use source::fault::Fault;
use source::single::Single;

// The slots are the caller's, so each step of a write asks that they are as many as the ring's (`own`). A struct that
// borrows both is no plainer: in place of it each step would say that it keeps both borrows. The three writes are shrev's;
// two of them are the first with a source of their own.
impl<E: Copy> RingBuffer<E> {
    // The size that holds what waits and the new events: the smallest of 2, 4, 8 and so on times the old one. None where
    // the slots are too few for it.
    fn grown_size(&self, waiting: usize, num: usize) -> Option<usize>
        ensures { let size = size_for self.now.last.size (waiting + num) in MatchOption result (self.now.slots < size) (λ s. (s ≡ size) × (s ≤ self.now.slots)) }
    {
        let need = waiting.checked_add(num)?;
        if need > self.slots {
            return None;
        }
        let mut size = self.last.size;
        // The rule as it reads: `next_power_of_two` of a rounded quotient would hide it.
        while size < need {
            size *= 2;
        }
        if size > self.slots { None } else { Some(size) }
    }

    // Makes the ring larger, with `left` the distance of the nearest reader.
    fn grow(&mut self, slots: &mut [E], by: usize, left: usize)
        requires double { self.old.last.size ≤ by }
        requires room { self.old.last.size + by ≤ self.old.slots }
        requires own { length slots.old ≡ self.old.slots }
        requires least { left ≤ self.old.last.size }
        requires ahead { Ahead self.old.meta.readers self.old.last.index self.old.last.size self.old.generation left }
        ensures available { self.new.available ≡ left + by }
        ensures last { self.new.last.index ≡ self.old.last.index }
        ensures generation { self.new.generation ≡ self.old.generation }
        ensures slots { slots.new ≡ grown slots.old ((self.old.last.index + 1) % self.old.last.size) self.old.last.size by }
        ensures ledger { ledger_of self.new slots.new ≡ with_size (ledger_of self.old slots.old) (self.old.last.size + by) }
    {
        grow(slots, self.last.step(), by);
        self.meta.shift(self.last.index, self.generation, by);
        self.last = self.last.resized(self.last.size + by);
        self.available = left + by;
    }

    // Draws all events, `num` in count, and stores them.
    fn store<S: Source<E>>(&mut self, slots: &mut [E], source: &mut S, num: usize)
        requires own { length slots.old ≡ self.old.slots }
        requires all { num ≡ length (S.Source.means source.old) }
        requires some { 1 ≤ num }
        requires enough { num ≤ self.old.available }
        ensures available { self.new.available ≡ self.old.available - num }
        ensures emptied { S.Source.means source.new ≡ [] }
        ensures drawn { S.Source.beneath source.old ≡ map (λ xs. S.Source.means source.old ++ xs) (S.Source.beneath source.new) }
        ensures last { self.new.last.index ≡ last_after self.old.last.size self.old.last.index num }
        ensures generation { self.new.generation ≡ (self.old.generation + 1) % 2 ^ 64 }
        ensures slots { slots.new ≡ stored slots.old self.old.last.size self.old.last.index (S.Source.means source.old) }
        ensures ledger { ledger_of self.new slots.new ≡ with_joined (ledger_of self.old slots.old) (S.Source.means source.old) }
    {
        self.generation = self.generation.wrapping_add(1);
        self.last = put_all(slots, self.last, source);
        self.available -= num;
    }

    // Ensures that `num` events can be stored, or refuses. Nobody is looked at while `available` covers them. In line, as
    // shrev's: where there is room, a comparison is all that it takes.
    #[inline(always)]
    fn ensure_additional(&mut self, slots: &mut [E], num: usize) -> Result<(), Fault>
        requires own { length slots.old ≡ self.old.slots }
        ensures { Ensured result self.old self.new slots.old slots.new num }
    {
        if self.available >= num {
            return Ok(());
        }
        self.ensure_additional_slow(slots, num)
    }

    // The open reader with the least room before it.
    fn nearest(&self) -> Option<usize>
        ensures { Nearest (distance self.now.last.index self.now.last.size self.now.generation) self.now.meta.readers most result }
    {
        self.meta.nearest_index(self.last, self.generation)
    }

    fn ensure_additional_slow(&mut self, slots: &mut [E], num: usize) -> Result<(), Fault>
        requires short { self.old.available < num }
        requires own { length slots.old ≡ self.old.slots }
        ensures { Ensured result self.old self.new slots.old slots.new num }
    {
        let size = self.last.size;
        let Some(nearest) = self.nearest() else {
            if num > size {
                return Err(Fault::BatchAboveSize);
            }
            self.available = size;
            return Ok(());
        };
        let reader = self.meta.readers[nearest].unwrap();
        let left = reader.distance_from(self.last, self.generation);
        if left >= num {
            self.available = left;
            return Ok(());
        }
        let grown = self
            .grown_size(size - left, num)
            .ok_or(Fault::GrowthAboveSlots)?;
        self.grow(slots, grown - size, left);
        Ok(())
    }

    // Writes all events of the source. A refused write draws none.
    pub fn iter_write<S: Source<E>>(
        &mut self,
        slots: &mut [E],
        source: &mut S,
    ) -> Result<Written, Fault>
        ensures ledger { (writes result, ledger_of self.new slots.new) ≡ outcome (ledger_of self.old slots.old) (write (length slots.old) (S.Source.means source.old)) }
        ensures stored { Stores result self.old self.new slots.old slots.new (S.Source.means source.old) }
        ensures source { Draws S.Source.means S.Source.beneath result source.old source.new }
    {
        if slots.len() != self.slots {
            return Err(Fault::OtherSlots);
        }
        let count = source.len();
        if count == 0 {
            return Ok(Written {
                count,
                size: self.last.size,
            });
        }
        self.ensure_additional(slots, count)?;
        self.store(slots, source, count);
        Ok(Written {
            count,
            size: self.last.size,
        })
    }

    // Writes the events of a drain, and leaves the buffer that it draws from.
    pub fn drain_vec_write(
        &mut self,
        slots: &mut [E],
        drain: &mut Drain<'_, E>,
    ) -> Result<Written, Fault>
        ensures ledger { (writes result, ledger_of self.new slots.new) ≡ outcome (ledger_of self.old slots.old) (write (length slots.old) drain.old.rest.rest.now) }
        ensures stored { Stores result self.old self.new slots.old slots.new drain.old.rest.rest.now }
        ensures source { Draws (λ d. d.rest.rest.now) (λ _. []) result drain.old drain.new }
    {
        self.iter_write(slots, drain)
    }

    // Writes one event.
    pub fn single_write(&mut self, slots: &mut [E], event: E) -> Result<Written, Fault>
        ensures ledger { (writes result, ledger_of self.new slots.new) ≡ outcome (ledger_of self.old slots.old) (write (length slots.old) (event ∷ [])) }
        ensures stored { Stores result self.old self.new slots.old slots.new (event ∷ []) }
    {
        let mut source = Single::new(event);
        self.iter_write(slots, &mut source)
    }
}
