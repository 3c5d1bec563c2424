ghost use Rattle.std.specs.Prelude.{◌≡◌, ◌<◌, ◌≤◌, length, position, MatchResult};
ghost use Rattle.source.specs.Faults.{number_of};
ghost use Rattle.source.specs.Legs.{live, live_legs, FirstLive};

use crate::event::Leg;
use crate::fault::Fault;
use crate::ticket::MOST_LEGS;

// The live ones of few supplied legs, in their order. `rest` is the legs not looked at yet.
#[derive(Drop)]
pub(crate) struct LiveLegs<'a> {
    today: u16,
    pub(crate) rest: &'a [Leg],
    ghost few: { length rest.now ≤ 256 },
}

impl<'a> LiveLegs<'a> {
    pub(crate) fn new(today: u16, legs: &'a [Leg]) -> Result<Self, Fault>
        ensures { MatchResult result
            (λ l. (length legs.now ≤ 256) × (l.today ≡ today) × (l.rest.now ≡ legs.now))
            (λ f. (256 < length legs.now) × (number_of f ≡ 11)) }
    {
        if legs.len() > MOST_LEGS {
            return Err(Fault::TooManyLegs);
        }
        Ok(LiveLegs { today, rest: legs })
    }

    pub(crate) fn count(&self) -> u16
        ensures { result ≡ length (live_legs self.now.today self.now.rest.now) }
    {
        // a sum of ones, which takes many legs at a step, and no `filter(..).count()`, which takes one
        let ones = self
            .rest
            .iter()
            .map(|leg| u16::from(leg.is_live(self.today)));
        ones.sum()
    }

    fn first(&self) -> Option<usize>
        ensures { result ≡ position (live self.now.today) self.now.rest.now }
    {
        self.rest.iter().position(|leg| leg.is_live(self.today))
    }

    // Draws the first live leg.
    pub(crate) fn draw(&mut self) -> Option<Leg>
        ensures first { FirstLive self.old.today self.old.rest.now result self.new.rest.now }
        ensures same_day { self.new.today ≡ self.old.today }
    {
        let at = self.first()?;
        let leg = self.rest[at];
        self.rest = &self.rest[at + 1..];
        Some(leg)
    }
}
