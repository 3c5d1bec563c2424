ghost use Rattle.std.specs.Prelude.{◌≡◌, ◌≢◌, ◌+◌, ◌<◌, ◌≤◌, ◌++◌, List, length, take, drop, Some, MatchOption, IfSome, slice_index_or, slice_set};
ghost use Rattle.std.specs.Borrow.{sem};
ghost use Rattle.ledger.specs.Ledger.Call.{write as writing, read as reading};
ghost use Rattle.shrev.specs.Channels.{ledger_of};
ghost use Rattle.replay.specs.Lending.{LendsPlace};
ghost use Rattle.replay.specs.Runs.{replies, state, registers_at, reads_at, closes_at, IdsRegistered, ids_closed, Drawn, Unmoved};
ghost use Rattle.replay.specs.Logs.{noted, events, IsTurnedAway, Logged};
ghost use Rattle.replay.specs.Steps.{with_slots};

use crate::words::{Call, Note, Reply};
use shrev::channel::EventChannel;
use shrev::id::ReaderId;
use source::Source;
use source::fault::Fault;

// Table and place are two parameters in the calls below: a place that the table does not have is an answer too.

// A place of a table. The library's `get_mut` says nothing of what the table ends as.
fn place_in<T>(table: &mut [T], place: usize) -> Option<&mut T>
    ensures found { MatchOption result (length table.old ≤ place) (λ x. (place < length table.old) × ((d : T) → slice_index_or table.old place d ≡ x.now)) }
    ensures same { IfSome result (λ x. slice_set table.old place x.now ≡ table.old) }
    ensures* lends { sem 𝓛 (LendsPlace T.row table.entry place result) }
{
    if place >= table.len() {
        return None;
    }
    Some(&mut table[place])
}

// Puts an id into a place, which its callers have found or made empty.
fn put<E>(place: &mut Option<ReaderId<E>>, id: ReaderId<E>)
    ensures { place.new ≡ Some id }
{
    if let Some(old) = place.replace(id) {
        let _number = old.give_up();
    }
}

// Registers a reader where the place is empty, and puts its id there.
fn register_at<E>(
    channel: &mut EventChannel<E>,
    ids: &mut [Option<ReaderId<E>>],
    place: usize,
) -> Note
    ensures told { (slots xs : List E) → (noted result xs, ledger_of channel.new slots) ≡ replies (ledger_of channel.old slots) (registers_at ids.old place) }
    ensures unmoved { (xs : List E) → Unmoved (noted result xs) channel.old channel.new }
    ensures ids { (xs : List E) → IdsRegistered channel.old.ring.instance ids.old place (noted result xs) ids.new }
    ensures none { events result ≡ 0 }
{
    let held = place_in(ids, place)?;
    if held.is_some() {
        return None;
    }
    // by `match`: a `?` passes on that nothing was made, and no fault
    match channel.register_reader() {
        Ok(id) => {
            let number = id.number();
            put(held, id);
            Some(Ok(Reply::Registered(number)))
        }
        Err(fault) => Some(Err(fault)),
    }
}

// Closes the reader whose id stands in the place. A refused close puts the id back.
fn close_at<E>(channel: &mut EventChannel<E>, ids: &mut [Option<ReaderId<E>>], place: usize) -> Note
    ensures told { (slots xs : List E) → (noted result xs, ledger_of channel.new slots) ≡ replies (ledger_of channel.old slots) (closes_at ids.old place) }
    ensures unmoved { (xs : List E) → Unmoved (noted result xs) channel.old channel.new }
    ensures ids { (xs : List E) → ids.new ≡ ids_closed ids.old place (noted result xs) }
    ensures none { events result ≡ 0 }
{
    let held = place_in(ids, place)?;
    let id = held.take()?;
    match channel.close(id) {
        Ok(()) => Some(Ok(Reply::Closed)),
        Err((fault, back)) => {
            put(held, back);
            Some(Err(fault))
        }
    }
}

// Writes a source's events into slots: the channel's own, or others of another count, which are refused whatever the
// channel's own hold.
fn write<E: Copy, S: Source<E>>(
    channel: &mut EventChannel<E>,
    slots: &mut [E],
    source: &mut S,
) -> Result<Reply, Fault>
    ensures told { (xs : List E) → (noted (Some result) xs, ledger_of channel.new slots.new) ≡ replies (ledger_of channel.old slots.old) (Some (writing (length slots.old) (S.Source.means source.old))) }
    ensures unmoved { (xs : List E) → Unmoved (noted (Some result) xs) (with_slots channel.old slots.old) (with_slots channel.new slots.new) }
    ensures elsewhere { length slots.old ≢ channel.old.ring.slots → IsTurnedAway (Some result) × (slots.new ≡ slots.old) }
    ensures source { (xs : List E) → Drawn S.Source.means S.Source.beneath source.old (noted (Some result) xs) source.new }
    ensures none { events (Some result) ≡ 0 }
{
    Ok(Reply::Wrote(channel.iter_write(slots, source)?))
}

// Copies two runs of events into the front of the log, and answers how many they are.
fn log_all<E: Copy>(log: &mut [E], first: &[E], second: &[E]) -> usize
    requires { length first.now + length second.now ≤ length log.old }
    ensures count { result ≡ length first.now + length second.now }
    ensures part { take result log.new ≡ first.now ++ second.now }
    ensures back { drop result log.new ≡ drop result log.old }
{
    let (front, rest) = log.split_at_mut(first.len());
    front.copy_from_slice(first);
    rest[..second.len()].copy_from_slice(second);
    first.len() + second.len()
}

// Reads with slots: the channel's own, or others of another count, which are refused whatever the channel's own hold. The
// events go to the front of the log.
fn read<E: Copy>(
    channel: &mut EventChannel<E>,
    slots: &[E],
    id: &mut ReaderId<E>,
    log: &mut [E],
) -> Result<Reply, Fault>
    requires { length slots.now ≡ channel.old.ring.slots → length slots.now ≤ length log.old }
    ensures told { (noted (Some result) (take (events (Some result)) log.new), ledger_of channel.new slots.now) ≡ replies (ledger_of channel.old slots.now) (Some (reading (length slots.now) id.old.instance id.old.number)) }
    ensures unmoved { (xs : List E) → Unmoved (noted (Some result) xs) channel.old channel.new }
    ensures elsewhere { length slots.now ≢ channel.old.ring.slots → IsTurnedAway (Some result) }
    ensures back { drop (events (Some result)) log.new ≡ drop (events (Some result)) log.old }
    ensures few { events (Some result) ≤ length slots.now }
    ensures id { id.new ≡ id.old }
{
    let (first, second) = channel.read(slots, id)?.parts();
    Ok(Reply::Handed(log_all(log, first, second)))
}

// Reads by the id that stands in the place.
fn read_at<E: Copy>(
    channel: &mut EventChannel<E>,
    slots: &[E],
    ids: &mut [Option<ReaderId<E>>],
    place: usize,
    log: &mut [E],
) -> Note
    requires { length slots.now ≡ channel.old.ring.slots → length slots.now ≤ length log.old }
    ensures told { (noted result (take (events result) log.new), ledger_of channel.new slots.now) ≡ replies (ledger_of channel.old slots.now) (reads_at (length slots.now) ids.old place) }
    ensures unmoved { (xs : List E) → Unmoved (noted result xs) channel.old channel.new }
    ensures elsewhere { length slots.now ≢ channel.old.ring.slots → IsTurnedAway result }
    ensures back { drop (events result) log.new ≡ drop (events result) log.old }
    ensures few { events result ≤ length slots.now }
    ensures ids { ids.new ≡ ids.old }
{
    // no `as_mut` with `?`: the check then leaves open that the table stays
    let Some(id) = place_in(ids, place)? else {
        return None;
    };
    Some(read(channel, slots, id, log))
}

// Makes one call of a list. Calls are data, which the theorems range over, so this names the step for each.
pub(crate) fn step<E: Copy, S: Source<E>>(
    channel: &mut EventChannel<E>,
    slots: &mut [E],
    others: &mut [E],
    ids: &mut [Option<ReaderId<E>>],
    call: &mut Call<S>,
    log: &mut [E],
) -> Note
    requires { length slots.old ≤ length log.old }
    ensures logged { Logged S.Source.means S.Source.beneath (length others.old) (state channel.old slots.old ids.old) call.old log.old result log.new call.new (state channel.new slots.new ids.new) }
    ensures others { others.new ≡ others.old }
{
    let elsewhere = others.len() != channel.slot_count();
    match call {
        Call::Register(place) => register_at(channel, ids, *place),
        Call::Write(source) => Some(write(channel, slots, source)),
        Call::WriteElsewhere(source) if elsewhere => Some(write(channel, others, source)),
        Call::Read(place) => read_at(channel, slots, ids, *place, log),
        Call::ReadElsewhere(place) if elsewhere => read_at(channel, others, ids, *place, log),
        Call::WriteElsewhere(_) | Call::ReadElsewhere(_) => None,
        Call::Close(place) => close_at(channel, ids, *place),
    }
}
