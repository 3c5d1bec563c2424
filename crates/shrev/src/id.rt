ghost use Rattle.std.specs.Prelude.{◌≡◌};

use std::marker::PhantomData;

// A subscription to the events of one channel. It can't be copied, and it ends only by `EventChannel::close` or by being
// given up: an id that is merely left doesn't compile.
pub struct ReaderId<E> {
    pub(crate) instance: u32,
    pub(crate) number: usize,
    pub(crate) kind: PhantomData<E>,
}

impl<E> ReaderId<E> {
    // The instance number of its channel.
    pub fn instance(&self) -> u32
        ensures { result ≡ self.now.instance }
    {
        self.instance
    }

    pub fn number(&self) -> usize
        ensures { result ≡ self.now.number }
    {
        self.number
    }

    // Ends the id alone. Its reader stays open, and what it has not read goes on growing.
    pub fn give_up(self) -> usize
        ensures { result ≡ self.number }
    {
        let ReaderId {
            instance: _,
            number,
            kind: _,
        } = self;
        number
    }
}
