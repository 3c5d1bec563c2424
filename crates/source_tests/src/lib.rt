// The sources on examples. What holds of every input is in the contracts of the crate `source`.
#![tactic(auto)]

#[cfg(test)]
mod tests {
    use source::Source;
    use source::capped::Capped;
    use source::drain::Drain;
    use source::event::{Leg, Quote, TicketEvent};
    use source::fault::Fault;
    use source::range::Range;
    use source::single::Single;
    use source::slice::Slice;
    use source::ticket::Ticket;
    use std::test::Fail;

    // Draws into `out` until the source gives none, and answers how many events came.
    fn draw<E: Copy, S: Source<E>>(source: &mut S, out: &mut [E]) -> usize {
        for (count, slot) in out.iter_mut().enumerate() {
            let Some(event) = source.next() else {
                return count;
            };
            *slot = event;
        }
        out.len()
    }

    fn leg(expiry: u16) -> Leg {
        Leg::new(4, -1, expiry)
    }

    #[test]
    fn slice_and_single_of_quotes(rt: HostRuntime) {
        let low = Quote {
            instrument: 1,
            bid: -5,
            ask: 10_000,
        };
        let high = Quote {
            instrument: 2,
            bid: 9,
            ask: 11,
        };
        let quotes = [low, high];
        let mut slice = Slice::new(&quotes);
        assert_eq!(rt; slice.len(), 2);
        assert_eq!(rt; slice.next(), Some(low));
        assert_eq!(rt; slice.len(), 1);
        assert_eq!(rt; slice.next(), Some(high));
        assert_eq!(rt; slice.next(), None);
        assert_eq!(rt; slice.len(), 0);
        let mut single = Single::new(high);
        assert_eq!(rt; single.len(), 1);
        assert_eq!(rt; single.next(), Some(high));
        assert_eq!(rt; single.len(), 0);
        assert_eq!(rt; single.next(), None);
    }

    #[test]
    fn texts(rt: HostRuntime) -> Result<(), Fail> {
        let quote = Quote {
            instrument: 1,
            bid: -5,
            ask: 10_000,
        };
        let text = quote.to_string(rt.alloc())?;
        assert_eq!(rt; text.as_str(), "instrument 1: bid -5, ask 10000");
        let text = leg(100).to_string(rt.alloc())?;
        assert_eq!(rt; text.as_str(), "-1 of instrument 4, expiry on day 100");
        let text = TicketEvent::Header { ticket: 7, legs: 3 }.to_string(rt.alloc())?;
        assert_eq!(rt; text.as_str(), "ticket 7: 3 legs follow");
        let text = TicketEvent::Leg(leg(100)).to_string(rt.alloc())?;
        assert_eq!(rt; text.as_str(), "leg: -1 of instrument 4, expiry on day 100");
        let text = TicketEvent::Done { ticket: 7 }.to_string(rt.alloc())?;
        assert_eq!(rt; text.as_str(), "ticket 7: complete");
        let text = Fault::OutputFull.to_string(rt.alloc())?;
        assert_eq!(rt; text.as_str(), "16");
        Ok(())
    }

    #[test]
    fn ranges(rt: HostRuntime) {
        let mut out = [0u32; 4];
        let mut backward = Range::new(7, 5);
        assert_eq!(rt; backward.len(), 0);
        assert_eq!(rt; draw(&mut backward, &mut out), 0);
        let mut one = Range::new(7, 8);
        assert_eq!(rt; one.len(), 1);
        assert_eq!(rt; draw(&mut one, &mut out), 1);
        assert_eq!(rt; out, [7, 0, 0, 0]);
        let mut last = Range::new(4_294_967_293, 4_294_967_295);
        assert_eq!(rt; last.len(), 2);
        assert_eq!(rt; draw(&mut last, &mut out), 2);
        assert_eq!(rt; out, [4_294_967_293, 4_294_967_294, 0, 0]);
        assert_eq!(rt; Range::new(0, 4_294_967_295).len(), 4_294_967_295);
    }

    #[test]
    fn drains(rt: HostRuntime) -> Result<(), Fail> {
        let buffer = [5u32, 6, 7];
        let mut out = [0u32; 4];
        let mut all = Drain::new(&buffer, 3)?;
        assert_eq!(rt; all.len(), 3);
        assert_eq!(rt; all.next(), Some(5));
        assert_eq!(rt; all.len(), 2);
        assert_eq!(rt; draw(&mut all, &mut out), 2);
        assert_eq!(rt; out, [6, 7, 0, 0]);
        assert_eq!(rt; buffer, [5, 6, 7]);
        assert_eq!(rt; Drain::new(&buffer, 0)?.len(), 0);
        assert_eq!(rt; Drain::new(&buffer, 4).err().map(Fault::number), Some(10));
        Ok(())
    }

    fn capped(most: usize) -> ([u32; 4], usize, usize) {
        let mut out = [0u32; 4];
        let mut source = Capped::new(Range::new(1, 4), most);
        let announced = source.len();
        let _drawn = draw(&mut source, &mut out);
        (out, announced, source.into_inner().len())
    }

    #[test]
    fn caps(rt: HostRuntime) {
        assert_eq!(rt; capped(0), ([0, 0, 0, 0], 0, 3));
        assert_eq!(rt; capped(2), ([1, 2, 0, 0], 2, 1));
        assert_eq!(rt; capped(3), ([1, 2, 3, 0], 3, 0));
        assert_eq!(rt; capped(9), ([1, 2, 3, 0], 3, 0));
        let mut out = [0u32; 4];
        let mut twice = Capped::new(Capped::new(Range::new(1, 9), 5), 3);
        assert_eq!(rt; twice.len(), 3);
        assert_eq!(rt; draw(&mut twice, &mut out), 3);
        assert_eq!(rt; out, [1, 2, 3, 0]);
        let below = twice.into_inner();
        assert_eq!(rt; below.len(), 2);
        assert_eq!(rt; below.into_inner().len(), 5);
    }

    #[test]
    fn tickets(rt: HostRuntime) -> Result<(), Fail> {
        let mut out = [TicketEvent::Done { ticket: 0 }; 6];
        let legs = [leg(100), leg(101), leg(99), leg(101)];
        let mut some = Ticket::new(7, 100, &legs)?;
        assert_eq!(rt; some.len(), 5);
        assert_eq!(rt; draw(&mut some, &mut out), 5);
        assert_eq!(rt; out[0], TicketEvent::Header { ticket: 7, legs: 3 });
        assert_eq!(rt; out[1], TicketEvent::Leg(leg(100)));
        assert_eq!(rt; out[2], TicketEvent::Leg(leg(101)));
        assert_eq!(rt; out[3], TicketEvent::Leg(leg(101)));
        assert_eq!(rt; out[4], TicketEvent::Done { ticket: 7 });
        let gone = [leg(99)];
        let mut none = Ticket::new(8, 100, &gone)?;
        assert_eq!(rt; none.len(), 2);
        assert_eq!(rt; draw(&mut none, &mut out), 2);
        assert_eq!(rt; out[0], TicketEvent::Header { ticket: 8, legs: 0 });
        assert_eq!(rt; out[1], TicketEvent::Done { ticket: 8 });
        Ok(())
    }

    #[test]
    fn ticket_sizes(rt: HostRuntime) -> Result<(), Fail> {
        let legs = [leg(100); 257];
        assert_eq!(rt; Ticket::new(1, 100, &legs[0..256])?.len(), 258);
        assert_eq!(rt; Ticket::new(1, 100, &legs[0..0])?.len(), 2);
        assert_eq!(rt;
            Ticket::new(1, 100, &legs).err().map(Fault::number),
            Some(11)
        );
        Ok(())
    }
}
