ghost use Rattle.std.specs.Prelude.{⊤, ◌≡◌, ◌≤◌};
ghost use Rattle.storage.specs.Kept.{Places, Bounded, Lags, Level, Ahead};

use crate::circular::CircularIndex;
use crate::reader::ReaderMeta;
use std::alloc::AllocError;
use std::marker::PhantomData;

// The record of a ring whose slots its caller supplies at each call. It is plain and may be copied.
pub struct RingBuffer<E> {
    // how many events can be stored before the readers need be looked at
    pub(crate) available: usize,
    // the place of the newest event, and the size
    pub(crate) last: CircularIndex,
    // the count of slots at the opening
    pub(crate) slots: usize,
    // how many writes brought events, modulo 2 to the 64th
    pub(crate) generation: u64,
    pub(crate) instance: u32,
    pub(crate) meta: ReaderMeta,
    pub(crate) kind: PhantomData<E>,
    ghost small: { 2 ≤ last.size },
    ghost room: { last.size ≤ slots },
    ghost few: { slots ≤ 1048576 },
    ghost spare: { available ≤ last.size },
    ghost ahead: { Ahead meta.readers last.index last.size generation available },
    ghost places: { Places meta.readers last.size },
    ghost bounded: { Bounded meta.readers },
    ghost lags: { Lags meta.readers last.index last.size generation },
    ghost level: { Level meta.readers last.index generation },
}

// By hand: a derive is refused on a generic struct with a ghost field.
impl<E> Clone for RingBuffer<E> {
    ghost is_clone = { λ ring copy. copy ≡ ring };

    ghost is_infallible = { λ _. ⊤ };

    fn clone(&self) -> Result<Self, AllocError> {
        Ok(*self)
    }
}

impl<E> Copy for RingBuffer<E> {}
