ghost use Rattle.replay.specs.declared.words.NotRun.TheVariants.{Denied};
ghost use Rattle.std.specs.Prelude.{◌≡◌};

use shrev::channel::EventChannel;
use source::fault::Fault;
use storage::written::Written;

// A call of a list. The number is a place in the caller's table of ids; an elsewhere call is made with other slots than
// the channel's own.
#[derive(Drop)]
pub enum Call<S> {
    Register(usize),
    Write(S),
    WriteElsewhere(S),
    Read(usize),
    ReadElsewhere(usize),
    Close(usize),
}

// What an accepted call answered.
#[derive(Clone, Copy, PartialEq, Eq, Debug)]
pub enum Reply {
    Registered(usize),
    Wrote(Written),
    // the events that a read handed out stand in a log; this is how many they are
    Handed(usize),
    Closed,
}

// What a call of a list came to; none where it was not made: no id stands in the place, or a new one would have no place
// to go to, or the other slots are as many as the channel's.
pub type Note = Option<Result<Reply, Fault>>;

// Why no call of a list was made.
#[derive(Clone, Copy, PartialEq, Eq, Debug)]
pub enum NotRun {
    // there are fewer notes than calls
    FewNotes,
    // the log might not hold what the calls could hand out: for each call as many events as there are slots
    ShortLog,
    Denied(Fault),
}

impl From<Fault> for NotRun {
    ghost from_gives = { λ fault why. why ≡ Denied fault };

    fn from(fault: Fault) -> NotRun {
        NotRun::Denied(fault)
    }
}

// A channel after a list of calls, and how many events it handed out.
#[derive(Drop)]
pub struct Replayed<E> {
    pub channel: EventChannel<E>,
    pub events: usize,
}
