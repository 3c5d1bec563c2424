use crate::feed::Feed;
use crate::names::{Reader, Topic};
use crate::stop::Stop;
use shrev::id::ReaderId;
use source::fault::Fault;
use std::fmt::Display;

// A window on the desk, which reads one feed. It has to leave: its id is neither copied nor merely left.
pub struct Window<E> {
    name: Reader,
    id: ReaderId<E>,
}

impl<E> Window<E> {
    // Opens a window, lends it to the work of its day, which may end early, and closes it then in any case.
    pub(crate) fn visit<W: FnOnce(&mut Window<E>, &mut Feed<E>) -> Result<(), Stop>>(
        rt: &HostRuntime,
        feed: &mut Feed<E>,
        name: Reader,
        work: W,
    ) -> Result<(), Stop>
        requires { W.IsAlwaysCallable work }
    {
        let mut window = Window::enter(rt, feed, name)?;
        let done = work(&mut window, feed);
        window.leave(rt, feed)?;
        done
    }

    fn enter(rt: &HostRuntime, feed: &mut Feed<E>, name: Reader) -> Result<Self, Stop> {
        let id = feed.channel.register_reader()?;
        let number = id.number();
        let at = feed.topic;
        match println!(rt; "{name} reads the {at} as reader {number}.") {
            Ok(()) => Ok(Window { name, id }),
            Err(error) => {
                let _number = id.give_up();
                Err(Stop::Output(error))
            }
        }
    }

    fn leave(self, rt: &HostRuntime, feed: &mut Feed<E>) -> Result<(), Stop> {
        let Window { name, id } = self;
        let number = id.number();
        // no `?`: the id has to be given up
        if let Err((fault, id)) = feed.channel.close(id) {
            let _number = id.give_up();
            return Err(Stop::Refused(fault));
        }
        println!(rt; "{name} leaves; number {number} is free.")?;
        Ok(())
    }

    fn refused(&self, rt: &HostRuntime, at: Topic, fault: Fault) -> Result<(), Stop> {
        let name = self.name;
        println!(rt; "{name} can't read the {at}: refusal {fault}.")?;
        Ok(())
    }
}

impl<E: Copy + Display> Window<E> {
    // Reads, and prints what came.
    pub(crate) fn show(&mut self, rt: &HostRuntime, feed: &mut Feed<E>) -> Result<(), Stop> {
        let name = self.name;
        let at = feed.topic;
        let view = match feed.read(&mut self.id) {
            Ok(view) => view,
            Err(fault) => return self.refused(rt, at, fault),
        };
        let (first, second) = view.parts();
        if first.is_empty() {
            println!(rt; "{name} receives nothing.")?;
            return Ok(());
        }
        println!(rt; "{name} receives:")?;
        for event in first.iter().chain(second) {
            println!(rt; "  {event}")?;
        }
        Ok(())
    }

    // Reads from one feed, and writes what came into another.
    pub(crate) fn forward(
        &mut self,
        rt: &HostRuntime,
        from: &mut Feed<E>,
        to: &mut Feed<E>,
    ) -> Result<(), Stop> {
        let at = from.topic;
        match from.read(&mut self.id) {
            Ok(mut view) => to.write(rt, &mut view),
            Err(fault) => self.refused(rt, at, fault),
        }
    }
}
