// Turns spread tickets into the events that are sent for them, and prints these beside what was announced.
#![tactic(auto)]

use source::Source;
use source::event::{Leg, TicketEvent};
use source::ticket::Ticket;
use std::io;

const TODAY: u16 = 9800;

// What came of a ticket: the count in its header, and how many legs and events followed.
#[derive(Default, Drop)]
struct Tally {
    promised: u32,
    legs: u32,
    events: usize,
}

impl Tally {
    // Counts an event, and prints it in other words than its `Display`.
    fn note(&mut self, rt: &HostRuntime, event: TicketEvent) -> io::Result<()> {
        self.events = self.events.saturating_add(1);
        match event {
            TicketEvent::Header { ticket, legs } => {
                self.promised = u32::from(legs);
                println!(rt; "  header of ticket {ticket}: {legs} legs")
            }
            TicketEvent::Leg(leg) => {
                self.legs = self.legs.saturating_add(1);
                println!(rt;
                    "  leg: instrument {}, quantity {}, expires on day {}",
                    leg.instrument, leg.quantity, leg.expiry
                )
            }
            TicketEvent::Done { ticket } => println!(rt; "  end of ticket {ticket}"),
        }
    }
}

fn send(rt: &HostRuntime, mut source: Ticket) -> io::Result<()> {
    let announced = source.len();
    println!(rt; "  announced: {announced} events")?;
    let mut tally = Tally::default();
    // As many draws as were announced; a draw that gives none is not counted, and the last line says so.
    for _ in 0..announced {
        if let Some(event) = source.next() {
            tally.note(rt, event)?;
        }
    }
    let agree = if tally.promised == tally.legs && announced == tally.events {
        "they agree"
    } else {
        "THEY DIFFER"
    };
    println!(rt;
        "  promised {} legs, sent {}; announced {announced} events, sent {}: {agree}",
        tally.promised, tally.legs, tally.events
    )
}

fn show(rt: &HostRuntime, ticket: u32, legs: &[Leg]) -> io::Result<()> {
    println!(rt;
        "ticket {ticket} on day {TODAY}, {} legs supplied",
        legs.len()
    )?;
    match Ticket::new(ticket, TODAY, legs) {
        Ok(source) => send(rt, source),
        Err(fault) => println!(rt; "  refused: {fault}"),
    }
}

fn main(rt: HostRuntime) -> io::Result<()> {
    let spread = [
        Leg::new(501, 10, 9800),
        Leg::new(502, -20, 9799),
        Leg::new(503, -20, 9830),
        Leg::new(504, 10, 9861),
    ];
    show(&rt, 31, &spread)?;
    show(&rt, 32, &[Leg::new(505, 1, 9700), Leg::new(506, -1, 9799)])?;
    show(&rt, 33, &[Leg::new(507, 1, 9900); 257])
}
