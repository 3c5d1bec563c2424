#![tactic(auto)]

ghost use Rattle.std.specs.Prelude.{◌≡◌, List, [], length};
ghost use Rattle.source.specs.Means.{Gives, Draws};

pub mod capped;
pub mod drain;
pub mod event;
pub mod fault;
mod live;
pub mod range;
pub mod single;
pub mod slice;
pub mod ticket;

// A batch of events that announces its length before it is drawn.
pub trait Source<E> {
    // The events still to come, in order.
    ghost means: { Self → List E };

    // The same of each source that it draws from, the nearest first.
    ghost beneath: { Self → List (List E) } = { λ _. [] };

    // The announced length. Asking for it draws nothing.
    fn len(&self) -> usize
        ensures { result ≡ length (means self.now) };

    // The first event, or none where nothing is left.
    fn next(&mut self) -> Option<E>
        ensures gives { Gives (means self.old) result (means self.new) }
        ensures draws { Draws (beneath self.old) result (beneath self.new) };
}
