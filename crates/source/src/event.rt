ghost use Rattle.std.specs.Prelude.{◌≡◌, Some};
ghost use Rattle.source.specs.Legs.{live};
ghost use Rattle.source.specs.Texts.{quote_text, leg_text, ticket_event_text};

use std::fmt;

// An event that is only a number.
pub type Number = u32;

// A price of an instrument. Bid and ask count ten-thousandths of a currency unit.
#[derive(Clone, Copy, PartialEq, Eq, Debug)]
pub struct Quote {
    pub instrument: u32,
    pub bid: i64,
    pub ask: i64,
}

impl fmt::Display for Quote {
    ghost output = { λ q. Some (quote_text q) };

    fn fmt<W: fmt::Write>(&self, f: &mut fmt::Formatter<W>) -> fmt::Result {
        write!(
            f,
            "instrument {}: bid {}, ask {}",
            self.instrument, self.bid, self.ask
        )
    }
}

// One side of a spread. The quantity is below zero when sold; the expiry is a day number, 1 January 2000 being day 0.
#[derive(Clone, Copy, PartialEq, Eq, Debug)]
pub struct Leg {
    pub instrument: u32,
    pub quantity: i32,
    pub expiry: u16,
}

impl Leg {
    pub fn new(instrument: u32, quantity: i32, expiry: u16) -> Self
        ensures { result ≡ record { instrument = instrument; quantity = quantity; expiry = expiry } }
    {
        Leg {
            instrument,
            quantity,
            expiry,
        }
    }

    // Whether the leg still trades: its expiry isn't before today.
    pub fn is_live(&self, today: u16) -> bool
        ensures { result ≡ live today self.now }
    {
        self.expiry >= today
    }
}

impl fmt::Display for Leg {
    ghost output = { λ l. Some (leg_text l) };

    fn fmt<W: fmt::Write>(&self, f: &mut fmt::Formatter<W>) -> fmt::Result {
        write!(
            f,
            "{} of instrument {}, expiry on day {}",
            self.quantity, self.instrument, self.expiry
        )
    }
}

// What a spread ticket is sent as: a header with the count of the legs that follow, the legs, and an end mark.
#[derive(Clone, Copy, PartialEq, Eq, Debug)]
pub enum TicketEvent {
    Header { ticket: u32, legs: u16 },
    Leg(Leg),
    Done { ticket: u32 },
}

impl fmt::Display for TicketEvent {
    ghost output = { λ e. Some (ticket_event_text e) };

    fn fmt<W: fmt::Write>(&self, f: &mut fmt::Formatter<W>) -> fmt::Result {
        match self {
            TicketEvent::Header { ticket, legs } => write!(
                f,
                "ticket {ticket}: {legs} legs follow"
            ),
            TicketEvent::Leg(leg) => write!(f, "leg: {leg}"),
            TicketEvent::Done { ticket } => write!(f, "ticket {ticket}: complete"),
        }
    }
}
