use crate::names::Topic;
use crate::stop::Stop;
use shrev::channel::EventChannel;
use shrev::id::ReaderId;
use source::Source;
use source::drain::Drain;
use source::fault::Fault;
use storage::util::Issuer;
use storage::view::View;
use storage::written::Written;

// How many slots each channel of the desk is given.
pub const SLOTS: usize = 8;

// A channel with its slots, and its name on the desk.
#[derive(Drop)]
pub struct Feed<E> {
    pub topic: Topic,
    pub channel: EventChannel<E>,
    slots: [E; SLOTS],
}

impl<E> Feed<E> {
    pub(crate) fn introduce(&self, rt: &HostRuntime) -> Result<(), Stop> {
        let topic = self.topic;
        let number = self.channel.instance();
        let size = self.channel.size();
        let slots = self.channel.slot_count();
        println!(rt; "Channel {number} carries the {topic}: size {size} of {slots} slots.")?;
        Ok(())
    }

    // Whether a write would reach anybody.
    pub(crate) fn ask(&self, rt: &HostRuntime) -> Result<(), Stop> {
        let topic = self.topic;
        if self.channel.would_write() {
            println!(rt; "Somebody still reads the {topic}.")?;
        } else {
            println!(rt; "Nobody reads the {topic} any more.")?;
        }
        Ok(())
    }

    pub(crate) fn read(&mut self, id: &mut ReaderId<E>) -> Result<View<'_, E>, Fault> {
        let slots = &self.slots[..];
        self.channel.read(slots, id)
    }
}

impl<E: Copy> Feed<E> {
    pub(crate) fn new(
        issuer: &mut Issuer,
        topic: Topic,
        size: usize,
        slots: [E; SLOTS],
    ) -> Result<Self, Fault> {
        let grant = issuer.open(size, SLOTS)?;
        Ok(Feed {
            topic,
            channel: EventChannel::new(grant),
            slots,
        })
    }

    fn report(&self, rt: &HostRuntime, answer: Result<Written, Fault>) -> Result<(), Stop> {
        let topic = self.topic;
        match answer {
            Ok(Written { count, size }) => {
                println!(rt; "Events written to the {topic}: {count}. The size is {size}.")?;
            }
            Err(fault) => {
                println!(rt; "Nothing written to the {topic}: refusal {fault}.")?;
            }
        }
        Ok(())
    }

    // The desk shows the channel's three writes, each by a method here. One with a closure for the write would have each
    // caller write out the channel, the slots and the call.
    pub(crate) fn write<S: Source<E>>(
        &mut self,
        rt: &HostRuntime,
        source: &mut S,
    ) -> Result<(), Stop> {
        let slots = &mut self.slots[..];
        let answer = self.channel.iter_write(slots, source);
        self.report(rt, answer)
    }

    pub(crate) fn write_drain(
        &mut self,
        rt: &HostRuntime,
        drain: &mut Drain<'_, E>,
    ) -> Result<(), Stop> {
        let slots = &mut self.slots[..];
        let answer = self.channel.drain_vec_write(slots, drain);
        self.report(rt, answer)
    }

    pub(crate) fn write_one(&mut self, rt: &HostRuntime, event: E) -> Result<(), Stop> {
        let slots = &mut self.slots[..];
        let answer = self.channel.single_write(slots, event);
        self.report(rt, answer)
    }
}
