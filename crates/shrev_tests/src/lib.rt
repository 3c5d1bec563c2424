// The ring and the channel on examples. What holds of every input is in the contracts of the crates `storage` and
// `shrev`.
#![tactic(auto)]

#[cfg(test)]
mod tests {
    use shrev::channel::EventChannel;
    use shrev::id::ReaderId;
    use source::Source;
    use source::drain::Drain;
    use source::event::{Leg, Quote, TicketEvent};
    use source::fault::Fault;
    use source::range::Range;
    use source::slice::Slice;
    use source::ticket::Ticket;
    use std::array;
    use std::test::Fail;
    use storage::ring::RingBuffer;
    use storage::util::Issuer;
    use storage::written::Written;

    const NONE: &[u32] = &[];

    fn ring<E>(size: usize, slots: usize) -> Result<RingBuffer<E>, Fault> {
        let mut issuer = Issuer::new(0);
        Ok(RingBuffer::new(issuer.open(size, slots)?))
    }

    fn refusal<T: Drop>(r: Result<T, Fault>) -> Option<u8> {
        r.err().map(Fault::number)
    }

    // A write's answer in figures: its count and the size, or the number of its refusal.
    fn figures(r: Result<Written, Fault>) -> Result<(usize, usize), u8> {
        let Written { count, size } = r.map_err(Fault::number)?;
        Ok((count, size))
    }

    fn put<E: Copy>(
        ring: &mut RingBuffer<E>,
        slots: &mut [E],
        events: &[E],
    ) -> Result<(usize, usize), u8> {
        figures(ring.iter_write(slots, &mut Slice::new(events)))
    }

    // As many unread events as the size, and one more that can't be had.
    #[test]
    fn full_laps(rt: HostRuntime) -> Result<(), Fail> {
        let mut two = [0u32; 2];
        let mut tight = ring(2, 2)?;
        assert_eq!(rt; tight.new_reader_id()?, 0);
        assert_eq!(rt; put(&mut tight, &mut two, &[7, 8]), Ok((2, 2)));
        assert_eq!(rt; tight.read(&two, 0)?.parts(), (&[7, 8][..], NONE));
        let mut three = [0u32; 3];
        let mut roomier = ring(2, 3)?;
        assert_eq!(rt; roomier.new_reader_id()?, 0);
        assert_eq!(rt; put(&mut roomier, &mut three, &[7, 8]), Ok((2, 2)));
        let nine = [9];
        let mut source = Slice::new(&nine);
        assert_eq!(rt;
            refusal(roomier.iter_write(&mut three, &mut source)),
            Some(9)
        );
        assert_eq!(rt; source.len(), 1);
        assert_eq!(rt; three, [7, 8, 0]);
        assert_eq!(rt; roomier.read(&three, 0)?.parts(), (&[7, 8][..], NONE));
        Ok(())
    }

    #[test]
    fn growth(rt: HostRuntime) -> Result<(), Fail> {
        let mut four = [0u32; 4];
        let mut from_zero = ring(2, 4)?;
        assert_eq!(rt; from_zero.new_reader_id()?, 0);
        assert_eq!(rt; put(&mut from_zero, &mut four, &[7, 8]), Ok((2, 2)));
        assert_eq!(rt; put(&mut from_zero, &mut four, &[9]), Ok((1, 4)));
        assert_eq!(rt; four, [7, 8, 9, 8]);
        assert_eq!(rt; from_zero.read(&four, 0)?.parts(), (&[7, 8, 9][..], NONE));
        let mut eight = [0u32; 8];
        let mut inside = ring(4, 8)?;
        assert_eq!(rt; put(&mut inside, &mut eight, &[1, 2, 3]), Ok((3, 4)));
        assert_eq!(rt; inside.new_reader_id()?, 0);
        assert_eq!(rt; put(&mut inside, &mut eight, &[4, 5]), Ok((2, 4)));
        assert_eq!(rt; put(&mut inside, &mut eight, &[6, 7, 8]), Ok((3, 8)));
        assert_eq!(rt; eight, [5, 6, 7, 8, 0, 2, 3, 4]);
        assert_eq!(rt;
            inside.read(&eight, 0)?.parts(),
            (&[4][..], &[5, 6, 7, 8][..])
        );
        Ok(())
    }

    // Eight events through a ring of size 4 that has to grow: `skip` sets where its end lies, `lag` how many events wait
    // when it grows.
    fn grown(skip: u32, lag: u32) -> Result<[u32; 8], Fault> {
        let mut slots = [99u32; 8];
        let mut ring = ring(4, 8)?;
        ring.iter_write(&mut slots, &mut Range::new(0, skip))?;
        let number = ring.new_reader_id()?;
        ring.iter_write(&mut slots, &mut Range::new(0, lag))?;
        ring.iter_write(&mut slots, &mut Range::new(lag, 8))?;
        let mut view = ring.read(&slots, number)?;
        Ok(array::from_fn(|_| view.next().unwrap_or(99)))
    }

    #[test]
    fn growth_at_every_place(rt: HostRuntime) -> Result<(), Fail> {
        // ranges of figures, and no index
        for skip in 0..4 {
            for lag in 0..5 {
                assert_eq!(rt; grown(skip, lag)?, [0, 1, 2, 3, 4, 5, 6, 7]);
            }
        }
        Ok(())
    }

    // A read past the ring's end has two runs. What was read isn't handed again, after an empty write neither.
    #[test]
    fn reads(rt: HostRuntime) -> Result<(), Fail> {
        let mut slots = [0u32; 8];
        let mut ring = ring(8, 8)?;
        assert_eq!(rt; refusal(ring.read(&slots, 0)), Some(7));
        assert_eq!(rt;
            figures(ring.iter_write(&mut slots, &mut Range::new(1, 7))),
            Ok((6, 8))
        );
        assert_eq!(rt; ring.new_reader_id()?, 0);
        assert_eq!(rt;
            figures(ring.iter_write(&mut slots, &mut Range::new(7, 12))),
            Ok((5, 8))
        );
        assert_eq!(rt; refusal(ring.read(&[0; 9], 0)), Some(5));
        assert_eq!(rt;
            ring.read(&slots, 0)?.parts(),
            (&[7, 8][..], &[9, 10, 11][..])
        );
        assert_eq!(rt; put(&mut ring, &mut slots, NONE), Ok((0, 8)));
        let mut nothing = Drain::new(&[5], 0)?;
        assert_eq!(rt;
            figures(ring.drain_vec_write(&mut slots, &mut nothing)),
            Ok((0, 8))
        );
        assert_eq!(rt; ring.read(&slots, 0)?.parts(), (NONE, NONE));
        Ok(())
    }

    #[test]
    fn every_number(rt: HostRuntime) -> Result<(), Fail> {
        let mut ring: RingBuffer<u32> = ring(2, 2)?;
        // the numbers themselves, and no index
        for number in 0..64usize {
            assert_eq!(rt; ring.new_reader_id()?, number);
        }
        assert_eq!(rt; refusal(ring.new_reader_id()), Some(4));
        ring.close(63)?;
        ring.close(5)?;
        ring.close(40)?;
        assert_eq!(rt; refusal(ring.close(5)), Some(7));
        assert_eq!(rt; refusal(ring.close(64)), Some(7));
        assert_eq!(rt; ring.new_reader_id()?, 40);
        assert_eq!(rt; ring.new_reader_id()?, 5);
        assert_eq!(rt; ring.new_reader_id()?, 63);
        assert_eq!(rt; refusal(ring.new_reader_id()), Some(4));
        Ok(())
    }

    #[test]
    fn numbers_taken_again(rt: HostRuntime) -> Result<(), Fail> {
        let slots = [0u32; 2];
        let mut ring = ring(2, 2)?;
        assert_eq!(rt; ring.new_reader_id()?, 0);
        assert_eq!(rt; ring.new_reader_id()?, 1);
        ring.close(1)?;
        assert_eq!(rt; refusal(ring.read(&slots, 1)), Some(7));
        assert!(rt; ring.would_write());
        ring.close(0)?;
        assert!(rt; !ring.would_write());
        assert_eq!(rt; ring.new_reader_id()?, 0);
        assert_eq!(rt; ring.new_reader_id()?, 1);
        Ok(())
    }

    // The slots' count comes before all else; a batch that is too long is refused by its announced length.
    #[test]
    fn refused_writes(rt: HostRuntime) -> Result<(), Fail> {
        let mut slots = [0u32; 4];
        let mut ring = ring(2, 4)?;
        assert_eq!(rt; put(&mut ring, &mut [0; 5], NONE), Err(5));
        assert_eq!(rt; put(&mut ring, &mut [0; 5], &[1, 2, 3]), Err(5));
        assert_eq!(rt; put(&mut ring, &mut slots, &[1, 2, 3]), Err(8));
        assert_eq!(rt; put(&mut ring, &mut slots, &[1, 2]), Ok((2, 2)));
        let mut long = Range::new(0, 4_294_967_295);
        assert_eq!(rt; refusal(ring.iter_write(&mut slots, &mut long)), Some(8));
        assert_eq!(rt; ring.new_reader_id()?, 0);
        assert_eq!(rt; refusal(ring.iter_write(&mut slots, &mut long)), Some(9));
        assert_eq!(rt; refusal(ring.iter_write(&mut [0; 5], &mut long)), Some(5));
        assert_eq!(rt; long.len(), 4_294_967_295);
        assert_eq!(rt; slots, [1, 2, 0, 0]);
        assert_eq!(rt; ring.read(&slots, 0)?.parts(), (NONE, NONE));
        Ok(())
    }

    #[test]
    fn openings(rt: HostRuntime) -> Result<(), Fail> {
        let mut issuer = Issuer::new(4_294_967_295);
        assert_eq!(rt; refusal(issuer.open(0, 0)), Some(1));
        assert_eq!(rt; refusal(issuer.open(1, 1_048_577)), Some(1));
        assert_eq!(rt; refusal(issuer.open(1_048_578, 1_048_577)), Some(2));
        assert_eq!(rt; refusal(issuer.open(2, 1)), Some(3));
        assert_eq!(rt; refusal(issuer.open_default(63)), Some(3));
        let last: EventChannel<u32> = EventChannel::new(issuer.open_default(1_048_576)?);
        assert_eq!(rt; last.instance(), 4_294_967_295);
        assert_eq!(rt; last.size(), 64);
        assert_eq!(rt; last.slot_count(), 1_048_576);
        assert_eq!(rt; refusal(issuer.open(2, 2)), Some(12));
        assert_eq!(rt; refusal(issuer.open(2, 1)), Some(3));
        Ok(())
    }

    // A close where the id doesn't belong: the refusal's number, and the id as it comes back.
    fn close_elsewhere<E>(
        channel: &mut EventChannel<E>,
        id: ReaderId<E>,
    ) -> Result<(u8, ReaderId<E>), Fail> {
        match channel.close(id) {
            Ok(()) => Err(Fail::new("another channel's id was taken")),
            Err((fault, id)) => Ok((fault.number(), id)),
        }
    }

    // Whether the channel took the id's close.
    fn closes<E>(channel: &mut EventChannel<E>, id: ReaderId<E>) -> bool {
        match channel.close(id) {
            Ok(()) => true,
            Err((_, id)) => {
                let _number = id.give_up();
                false
            }
        }
    }

    #[test]
    fn ids(rt: HostRuntime) -> Result<(), Fail> {
        let mut slots = [0u32; 2];
        let mut issuer = Issuer::new(7);
        let mut own: EventChannel<u32> = EventChannel::new(issuer.open(2, 2)?);
        let mut other: EventChannel<u32> = EventChannel::new(issuer.open(2, 2)?);
        let mut id = own.register_reader()?;
        let slots_first = refusal(other.read(&[0; 3], &mut id));
        let elsewhere = refusal(other.read(&slots, &mut id));
        let (closing, mut id) = close_elsewhere(&mut other, id)?;
        let names = (id.instance(), id.number());
        let written = figures(own.single_write(&mut slots, 3));
        let handed = own
            .read(&slots, &mut id)
            .ok()
            .and_then(|mut view| view.next());
        let closed = closes(&mut own, id);
        assert_eq!(rt; (slots_first, elsewhere, closing), (Some(5), Some(6), 6));
        assert_eq!(rt; names, (7, 0));
        assert_eq!(rt; written, Ok((1, 2)));
        assert_eq!(rt; handed, Some(3));
        assert!(rt; closed);
        assert!(rt; !own.would_write());
        Ok(())
    }

    // The reader of an id that was given up stays, and what it has not read is in the way.
    #[test]
    fn ids_given_up(rt: HostRuntime) -> Result<(), Fail> {
        let mut slots = [0u32; 2];
        let mut issuer = Issuer::new(0);
        let mut channel = EventChannel::new(issuer.open(2, 2)?);
        let id = channel.register_reader()?;
        assert_eq!(rt; id.give_up(), 0);
        assert!(rt; channel.would_write());
        assert_eq!(rt; figures(channel.single_write(&mut slots, 1)), Ok((1, 2)));
        assert_eq!(rt; figures(channel.single_write(&mut slots, 2)), Ok((1, 2)));
        assert_eq!(rt; figures(channel.single_write(&mut slots, 3)), Err(9));
        Ok(())
    }

    // What was read of one ring goes into another, and is gone from the view.
    #[test]
    fn quotes(rt: HostRuntime) -> Result<(), Fail> {
        let low = Quote {
            instrument: 1,
            bid: -5,
            ask: 10_000,
        };
        let high = Quote {
            instrument: 2,
            bid: 9,
            ask: 11,
        };
        let mut slots = [low; 4];
        let mut ring = ring(2, 4)?;
        assert_eq!(rt; ring.new_reader_id()?, 0);
        assert_eq!(rt; put(&mut ring, &mut slots, &[high, low, high]), Ok((3, 4)));
        let mut view = ring.read(&slots, 0)?;
        assert_eq!(rt; view.parts(), (&[high, low][..], &[high][..]));
        let mut copies = [low; 4];
        let mut issuer = Issuer::new(1);
        let mut mirror = RingBuffer::new(issuer.open(4, 4)?);
        assert_eq!(rt; mirror.new_reader_id()?, 0);
        assert_eq!(rt;
            figures(mirror.iter_write(&mut copies, &mut view)),
            Ok((3, 4))
        );
        assert_eq!(rt; view.len(), 0);
        assert_eq!(rt; mirror.read(&copies, 0)?.parts().0, &[high, low, high][..]);
        Ok(())
    }

    #[test]
    fn tickets(rt: HostRuntime) -> Result<(), Fail> {
        let live = Leg {
            instrument: 4,
            quantity: -1,
            expiry: 100,
        };
        let legs = [Leg { expiry: 99, ..live }, live];
        let mut slots = [TicketEvent::Done { ticket: 0 }; 4];
        let mut ring = ring(2, 4)?;
        assert_eq!(rt; ring.new_reader_id()?, 0);
        let mut ticket = Ticket::new(7, 100, &legs)?;
        assert_eq!(rt;
            figures(ring.iter_write(&mut slots, &mut ticket)),
            Ok((3, 4))
        );
        assert_eq!(rt; ticket.len(), 0);
        let mut view = ring.read(&slots, 0)?;
        assert_eq!(rt;
            view.next(),
            Some(TicketEvent::Header { ticket: 7, legs: 1 })
        );
        assert_eq!(rt; view.next(), Some(TicketEvent::Leg(live)));
        assert_eq!(rt; view.next(), Some(TicketEvent::Done { ticket: 7 }));
        assert_eq!(rt; view.next(), None);
        Ok(())
    }
}
