ghost use Rattle.std.specs.Prelude.{◌≡◌, ◌<◌, length, MatchResult};
ghost use Rattle.source.specs.Faults.{number_of};
ghost use Rattle.source.specs.Legs.{live_legs};
ghost use Rattle.source.specs.Tickets.{ticket_rest, legs_left, Made};

use crate::Source;
use crate::event::{Leg, TicketEvent};
use crate::fault::Fault;
use crate::live::LiveLegs;

// The most legs that a ticket is made of, live or not.
pub const MOST_LEGS: usize = 256;

// What comes next. A chain of iterators would need no stage, but a struct can't name the type of its closures.
#[derive(Clone, Copy)]
enum Stage {
    Header,
    Legs,
    End,
}

// A spread ticket: its header, the live ones of the supplied legs in their order, and its end mark.
#[derive(Drop)]
pub struct Ticket<'a> {
    ticket: u32,
    legs: LiveLegs<'a>,
    stage: Stage,
}

impl<'a> Ticket<'a> {
    pub fn new(ticket: u32, today: u16, legs: &'a [Leg]) -> Result<Self, Fault>
        ensures { MatchResult result
            (λ t. Made ticket today legs.now t)
            (λ f. (256 < length legs.now) × (number_of f ≡ 11)) }
    {
        let legs = LiveLegs::new(today, legs)?;
        Ok(Ticket {
            ticket,
            legs,
            stage: Stage::Header,
        })
    }
}

impl<'a> Source<TicketEvent> for Ticket<'a> {
    ghost means = { λ s. ticket_rest s.stage s.ticket (live_legs s.legs.today (legs_left s)) };

    fn len(&self) -> usize {
        let live = usize::from(self.legs.count());
        match self.stage {
            Stage::Header => live + 2,
            Stage::Legs => live + 1,
            Stage::End => 0,
        }
    }

    fn next(&mut self) -> Option<TicketEvent> {
        match self.stage {
            Stage::Header => {
                self.stage = Stage::Legs;
                Some(TicketEvent::Header {
                    ticket: self.ticket,
                    legs: self.legs.count(),
                })
            }
            Stage::Legs => match self.legs.draw() {
                Some(leg) => Some(TicketEvent::Leg(leg)),
                None => {
                    self.stage = Stage::End;
                    Some(TicketEvent::Done {
                        ticket: self.ticket,
                    })
                }
            },
            Stage::End => None,
        }
    }
}
