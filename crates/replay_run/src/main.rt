#![tactic(auto)]

ghost use Rattle.replay_run.specs.Batches.{batch_means};

use replay::run::{count_in, replay};
use replay::words::{Call, NotRun, Note, Replayed, Reply};
use shrev::channel::EventChannel;
use shrev::id::ReaderId;
use source::Source;
use source::event::Number;
use source::fault::Fault;
use source::range::Range;
use source::slice::Slice;
use std::{fmt, io};
use storage::util::Issuer;

// The events of one write: listed, or counted. The calls of a list are of one type, so it has both, and each method of a
// source asks which.
#[derive(Drop)]
enum Batch<'a> {
    Listed(Slice<'a, Number>),
    Counted(Range),
}

impl<'a> Source<Number> for Batch<'a> {
    ghost means = { batch_means };

    fn len(&self) -> usize {
        match self {
            Batch::Listed(events) => events.len(),
            Batch::Counted(events) => events.len(),
        }
    }

    fn next(&mut self) -> Option<Number> {
        match self {
            Batch::Listed(events) => events.next(),
            Batch::Counted(events) => events.next(),
        }
    }
}

// These two take what the list below writes; by `From` each of its calls would have to make a `Slice` or a `Range` first.
fn listed<'a>(events: &'a [Number]) -> Batch<'a> {
    Batch::Listed(Slice::new(events))
}

fn counted<'a>(start: Number, end: Number) -> Batch<'a> {
    Batch::Counted(Range::new(start, end))
}

// An id of another channel.
fn strange(issuer: &mut Issuer) -> Result<ReaderId<Number>, Fault> {
    EventChannel::new(issuer.open(2, 2)?).register_reader()
}

// An array of ids is taken apart by hand: the library's iterator over one and its `map` want elements that may be dropped.
fn give_up(held: Option<ReaderId<Number>>) {
    let _number = held.map(ReaderId::give_up);
}

// A note, and the events of the log that it counts.
#[derive(Clone, Copy)]
struct Line<'a> {
    note: Note,
    events: &'a [Number],
}

impl fmt::Display for Line<'_> {
    fn fmt<W: fmt::Write>(&self, f: &mut fmt::Formatter<W>) -> fmt::Result {
        match self.note {
            None => write!(f, "not made"),
            Some(Err(fault)) => write!(f, "refused {fault}"),
            Some(Ok(Reply::Registered(number))) => write!(f, "registered {number}"),
            Some(Ok(Reply::Wrote(written))) => {
                write!(f, "wrote {}, size {}", written.count, written.size)
            }
            Some(Ok(Reply::Handed(_))) => {
                write!(f, "handed")?;
                for event in self.events {
                    write!(f, " {event}")?;
                }
                Ok(())
            }
            Some(Ok(Reply::Closed)) => write!(f, "closed"),
        }
    }
}

// Notes and log are two parameters, as `replay` is handed them.

// Prints each note, and beside a read's its events, which stand in the log one read after another.
fn show(rt: &HostRuntime, notes: &[Note], log: &[Number]) -> io::Result<()> {
    let mut later = log;
    for note in notes {
        let (events, rest) = later.split_at(count_in(note).min(later.len()));
        let line = Line {
            note: *note,
            events,
        };
        println!(rt; "{line}")?;
        later = rest;
    }
    Ok(())
}

fn tell(
    rt: &HostRuntime,
    run: Result<Replayed<Number>, NotRun>,
    notes: &[Note],
    log: &[Number],
) -> io::Result<()> {
    match run {
        Ok(replayed) => {
            show(rt, notes, log)?;
            println!(rt;
                "{} events, size {}",
                replayed.events,
                replayed.channel.size()
            )
        }
        Err(why) => println!(rt; "not run: {why:?}"),
    }
}

// Growth, a strange id, other slots, numbers freed and taken again, and each refusal of a call but the 65th reader's.
fn list() -> [Call<Batch<'static>>; 26] {
    [
        Call::Write(counted(1, 4)),
        Call::Register(0),
        Call::Write(listed(&[4, 5])),
        Call::Write(counted(6, 9)),
        Call::Register(0),
        Call::Register(1),
        Call::Read(0),
        Call::Read(0),
        Call::WriteElsewhere(listed(&[9])),
        Call::ReadElsewhere(0),
        Call::Read(2),
        Call::Close(2),
        Call::Read(3),
        Call::Write(counted(10, 19)),
        Call::Write(counted(10, 18)),
        Call::Read(1),
        Call::Close(1),
        Call::Close(0),
        Call::Close(0),
        Call::Write(counted(0, 9)),
        Call::Register(1),
        Call::Register(0),
        Call::Write(listed(&[])),
        Call::Write(listed(&[30, 20, 30])),
        Call::Read(0),
        Call::Close(0),
    ]
}

// The list on a channel of size 4 over eight slots.
fn long_run(rt: &HostRuntime) -> io::Result<()> {
    let mut issuer = Issuer::new(7);
    let mut ids = [None, None, strange(&mut issuer).ok(), None];
    let mut calls = list();
    let mut notes = [None; 26];
    let mut log = [0; 208];
    let mut slots = [0; 8];
    let mut others = [0; 3];
    let run = replay(
        &mut issuer,
        4,
        &mut slots,
        &mut others,
        &mut ids,
        &mut calls,
        &mut notes,
        &mut log,
    );
    let [a, b, c, d] = ids;
    give_up(a);
    give_up(b);
    give_up(c);
    give_up(d);
    tell(rt, run, &notes, &log)
}

// Three calls on a channel of the given size over two slots.
fn short_run(
    rt: &HostRuntime,
    size: usize,
    notes: &mut [Note],
    log: &mut [Number],
) -> io::Result<()> {
    let mut issuer = Issuer::new(0);
    let mut ids = [None];
    let mut calls = [
        Call::Register(0),
        Call::WriteElsewhere(Range::new(1, 2)),
        Call::Close(0),
    ];
    let mut slots = [0; 2];
    // as many as the channel's own, so that the second call is not made
    let mut others = [0; 2];
    let run = replay(
        &mut issuer,
        size,
        &mut slots,
        &mut others,
        &mut ids,
        &mut calls,
        notes,
        log,
    );
    let [a] = ids;
    give_up(a);
    tell(rt, run, notes, log)
}

fn main(rt: HostRuntime) -> io::Result<()> {
    long_run(&rt)?;
    short_run(&rt, 2, &mut [None; 2], &mut [0; 6])?;
    short_run(&rt, 2, &mut [None; 3], &mut [0; 5])?;
    short_run(&rt, 1, &mut [None; 3], &mut [0; 6])?;
    short_run(&rt, 2, &mut [None; 3], &mut [0; 6])
}
