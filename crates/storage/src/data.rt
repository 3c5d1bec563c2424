ghost use Rattle.std.specs.Prelude.{◌≡◌, ◌+◌, ◌<◌, ◌≤◌, [], ◌++◌, map, length, slice_set};
ghost use Rattle.storage.specs.Slots.{grown, stored, last_after};

use crate::circular::CircularIndex;
use source::Source;

// The slots from the cursor up to its size move to the back, so that room lies before them.
pub(crate) fn grow<E: Copy>(slots: &mut [E], cursor: CircularIndex, by: usize)
    requires { cursor.size + by ≤ length slots.old }
    ensures { slots.new ≡ grown slots.old cursor.index cursor.size by }
{
    slots.copy_within(cursor.index..cursor.size, cursor.index + by);
}

// Stores an event over what the slot held. Slots are the caller's, so their place is handed in beside them.
pub(crate) fn put<E: Copy>(slots: &mut [E], cursor: usize, event: E)
    requires { cursor < length slots.old }
    ensures { slots.new ≡ slice_set slots.old cursor event }
{
    slots[cursor] = event;
}

// Draws every event and stores it at the place after the last. Answers the new last place.
pub(crate) fn put_all<E: Copy, S: Source<E>>(
    slots: &mut [E],
    last: CircularIndex,
    source: &mut S,
) -> CircularIndex
    requires { last.size ≤ length slots.old }
    ensures after { slots.new ≡ stored slots.old last.size last.index (S.Source.means source.old) }
    ensures emptied { S.Source.means source.new ≡ [] }
    ensures drawn { S.Source.beneath source.old ≡ map (λ xs. S.Source.means source.old ++ xs) (S.Source.beneath source.new) }
    ensures index { result.index ≡ last_after last.size last.index (length (S.Source.means source.old)) }
    ensures size { result.size ≡ last.size }
{
    let mut at = last;
    // `while let`: a source is no iterator, since what it means is part of its contract.
    while let Some(event) = source.next() {
        at = at.step();
        put(slots, at.index, event);
    }
    at
}
