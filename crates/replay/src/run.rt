ghost use Rattle.std.specs.Prelude.{◌≡◌, ◌*◌, ◌≤◌, length};
ghost use Rattle.replay.specs.Runs.{state};
ghost use Rattle.replay.specs.Logs.{events, LoggedAll, desk, Replays};

use crate::step::step;
use crate::words::{Call, NotRun, Note, Replayed, Reply};
use shrev::channel::EventChannel;
use shrev::id::ReaderId;
use source::Source;
use storage::util::Issuer;

// How many events of the log a note counts.
pub fn count_in(note: &Note) -> usize
    ensures { result ≡ events note.now }
{
    match note {
        Some(Ok(Reply::Handed(count))) => *count,
        _ => 0,
    }
}

// Makes every call of the list, with room for all that they can answer. Answers how many events went to the log.
// A struct of the channel, slots, others and ids is no plainer: `run` and `step` would each have to say that its three
// references stay the same ones and that the slots keep their length, which goes without saying for parameters.
fn run<E: Copy, S: Source<E>>(
    channel: &mut EventChannel<E>,
    slots: &mut [E],
    others: &mut [E],
    ids: &mut [Option<ReaderId<E>>],
    calls: &mut [Call<S>],
    notes: &mut [Note],
    log: &mut [E],
) -> usize
    requires notes { length calls.old ≤ length notes.old }
    requires log { length calls.old * length slots.old ≤ length log.old }
    ensures logged { LoggedAll S.Source.means S.Source.beneath (length others.old) (state channel.old slots.old ids.old) calls.old notes.old log.old result notes.new log.new calls.new (state channel.new slots.new ids.new) }
    ensures others { others.new ≡ others.old }
{
    let mut at = 0;
    // no `zip` with the notes: of what is written through that adapter of `iter_mut` a proof knows nothing
    for (i, call) in calls.iter_mut().enumerate() {
        let note = step(channel, slots, others, ids, call, &mut log[at..]);
        notes[i] = note;
        at += count_in(&note);
    }
    at
}

// Opens a channel of the given size over all of the slots, and runs the list of calls on it. Each call has a note, and the
// events that were handed out stand in the log, one after another. Nothing allocates: where notes or log might not do, or
// the opening is refused, no call is made. The caller supplies notes beside the calls, so there can be too few of them.
// The slices stay parameters: in a struct of them a clause could not say by name what each holds afterwards.
pub fn replay<E: Copy, S: Source<E>>(
    issuer: &mut Issuer,
    size: usize,
    slots: &mut [E],
    others: &mut [E],
    ids: &mut [Option<ReaderId<E>>],
    calls: &mut [Call<S>],
    notes: &mut [Note],
    log: &mut [E],
) -> Result<Replayed<E>, NotRun>
    ensures run { Replays S.Source.means S.Source.beneath (length others.old) size (desk issuer.old slots.old ids.old calls.old notes.old log.old) result (desk issuer.new slots.new ids.new calls.new notes.new log.new) }
    ensures others { others.new ≡ others.old }
{
    if notes.len() < calls.len() {
        return Err(NotRun::FewNotes);
    }
    let room = calls
        .len()
        .checked_mul(slots.len())
        .ok_or(NotRun::ShortLog)?;
    if log.len() < room {
        return Err(NotRun::ShortLog);
    }
    let mut channel = EventChannel::new(issuer.open(size, slots.len())?);
    let events = run(&mut channel, slots, others, ids, calls, notes, log);
    Ok(Replayed { channel, events })
}
