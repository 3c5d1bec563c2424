ghost use Rattle.std.specs.Prelude.{◌≡◌, ◌+◌, ◌<◌, length, MatchOption};
ghost use Rattle.script.specs.Lines.{spaced};

use crate::number::digits;

// What is left of so many bytes once the events stand in them, each with a space before it; none where they don't fit.
// Bytes are taken off and never added up, so no count of events is too large.
pub(crate) fn room_after(room: usize, events: &[u32]) -> Option<usize>
    ensures { MatchOption result
        (room < length (spaced events.now))
        (λ left. left + length (spaced events.now) ≡ room) }
{
    let mut left = room;
    for event in events {
        left = left.checked_sub(1 + digits(*event as usize))?;
    }
    Some(left)
}
