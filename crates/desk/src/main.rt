// A day on a desk: prices and tickets go through channels, and windows read them.
#![tactic(auto)]

mod feed;
mod names;
mod stop;
mod window;

use feed::{Feed, SLOTS};
use names::{Reader, Topic};
use source::drain::Drain;
use source::event::{Leg, Quote, TicketEvent};
use source::slice::Slice;
use source::ticket::Ticket;
use stop::Stop;
use storage::util::Issuer;
use window::Window;

const TODAY: u16 = 9800;

fn quote(instrument: u32, bid: i64) -> Quote {
    Quote {
        instrument,
        bid,
        ask: bid.saturating_add(20),
    }
}

// Feeds and windows are parameters of their own, since each part of the day takes others of them.

// The blotter reads at once. Risk lags until the ring has grown and can't grow again.
fn burst(
    rt: &HostRuntime,
    quotes: &mut Feed<Quote>,
    blotter: &mut Window<Quote>,
    risk: &mut Window<Quote>,
) -> Result<(), Stop> {
    let opening = [quote(1, 108_500), quote(2, 9_750)];
    quotes.write(rt, &mut Slice::new(&opening))?;
    blotter.show(rt, quotes)?;
    println!(rt; "Risk is busy and doesn't look.")?;
    let moves = [quote(1, 108_510), quote(2, 9_740), quote(1, 108_530)];
    quotes.write(rt, &mut Slice::new(&moves))?;
    blotter.show(rt, quotes)?;
    println!(rt; "Four more quotes come in while five wait for Risk.")?;
    let flood = [quote(3, 10); 4];
    quotes.write(rt, &mut Slice::new(&flood))?;
    risk.show(rt, quotes)?;
    blotter.show(rt, quotes)
}

// Batches without an event, after everything was read: nobody is handed anything again.
fn lull(
    rt: &HostRuntime,
    quotes: &mut Feed<Quote>,
    blotter: &mut Window<Quote>,
    risk: &mut Window<Quote>,
) -> Result<(), Stop> {
    println!(rt; "Two empty batches come in.")?;
    let buffer = [quote(9, 1)];
    quotes.write(rt, &mut Slice::new(&buffer[0..0]))?;
    quotes.write_drain(rt, &mut Drain::new(&buffer, 0)?)?;
    blotter.show(rt, quotes)?;
    risk.show(rt, quotes)
}

fn morning(
    rt: &HostRuntime,
    quotes: &mut Feed<Quote>,
    risk: &mut Window<Quote>,
) -> Result<(), Stop> {
    println!(rt; "\nMorning.")?;
    Window::visit(rt, quotes, Reader::Blotter, |blotter, quotes| {
        burst(rt, quotes, blotter, risk)?;
        lull(rt, quotes, blotter, risk)
    })
}

// News takes the number that the blotter had, and receives only what is written from now on.
fn late_morning(rt: &HostRuntime, quotes: &mut Feed<Quote>) -> Result<(), Stop> {
    Window::visit(rt, quotes, Reader::News, |news, quotes| {
        quotes.write_one(rt, quote(1, 108_540))?;
        news.show(rt, quotes)
    })
}

// What Risk reads is written into the mirror straight from the slots that it lies in.
fn relay(
    rt: &HostRuntime,
    quotes: &mut Feed<Quote>,
    risk: &mut Window<Quote>,
    mirror: &mut Feed<Quote>,
    overseas: &mut Window<Quote>,
) -> Result<(), Stop> {
    let late = [quote(1, 108_550), quote(2, 9_730)];
    quotes.write(rt, &mut Slice::new(&late))?;
    println!(rt; "Risk passes on to the mirror what it has not read.")?;
    risk.forward(rt, quotes, mirror)?;
    overseas.show(rt, mirror)?;
    risk.show(rt, quotes)?;
    println!(rt; "Overseas tries its id of the mirror on the quotes.")?;
    overseas.show(rt, quotes)
}

fn noon(
    rt: &HostRuntime,
    quotes: &mut Feed<Quote>,
    risk: &mut Window<Quote>,
    mirror: &mut Feed<Quote>,
) -> Result<(), Stop> {
    println!(rt; "\nNoon.")?;
    Window::visit(rt, mirror, Reader::Overseas, |overseas, mirror| {
        relay(rt, quotes, risk, mirror, overseas)
    })
}

fn quote_day(
    rt: &HostRuntime,
    quotes: &mut Feed<Quote>,
    mirror: &mut Feed<Quote>,
) -> Result<(), Stop> {
    Window::visit(rt, quotes, Reader::Risk, |risk, quotes| {
        morning(rt, quotes, risk)?;
        late_morning(rt, quotes)?;
        noon(rt, quotes, risk, mirror)
    })
}

// A spread of four legs, of which one expired yesterday.
fn ticket_day(rt: &HostRuntime, tickets: &mut Feed<TicketEvent>) -> Result<(), Stop> {
    println!(rt; "\nAfternoon of day {TODAY}.")?;
    let legs = [
        Leg::new(501, 10, 9800),
        Leg::new(502, -20, 9799),
        Leg::new(503, -20, 9830),
        Leg::new(504, 10, 9861),
    ];
    Window::visit(rt, tickets, Reader::Orders, |orders, tickets| {
        tickets.write(rt, &mut Ticket::new(31, TODAY, &legs)?)?;
        orders.show(rt, tickets)
    })
}

fn main(rt: HostRuntime) -> Result<(), Stop> {
    let mut issuer = Issuer::new(100);
    let no_quotes = [quote(0, 0); SLOTS];
    let no_tickets = [TicketEvent::Done { ticket: 0 }; SLOTS];
    let mut quotes = Feed::new(&mut issuer, Topic::Quotes, 2, no_quotes)?;
    let mut mirror = Feed::new(&mut issuer, Topic::Mirror, 2, no_quotes)?;
    let mut tickets = Feed::new(&mut issuer, Topic::Tickets, 4, no_tickets)?;
    quotes.introduce(&rt)?;
    mirror.introduce(&rt)?;
    tickets.introduce(&rt)?;
    quote_day(&rt, &mut quotes, &mut mirror)?;
    ticket_day(&rt, &mut tickets)?;
    println!(rt; "\nEvening.")?;
    quotes.ask(&rt)
}
