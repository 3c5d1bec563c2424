use std::fmt;

// What a channel of the desk carries.
#[derive(Clone, Copy)]
pub enum Topic {
    Quotes,
    Mirror,
    Tickets,
}

// Who reads.
#[derive(Clone, Copy)]
pub enum Reader {
    Blotter,
    Risk,
    News,
    Overseas,
    Orders,
}

impl fmt::Display for Topic {
    fn fmt<W: fmt::Write>(&self, f: &mut fmt::Formatter<W>) -> fmt::Result {
        let name = match *self {
            Topic::Quotes => "quotes",
            Topic::Mirror => "mirror",
            Topic::Tickets => "tickets",
        };
        write!(f, "{name}")
    }
}

impl fmt::Display for Reader {
    fn fmt<W: fmt::Write>(&self, f: &mut fmt::Formatter<W>) -> fmt::Result {
        let name = match *self {
            Reader::Blotter => "Blotter",
            Reader::Risk => "Risk",
            Reader::News => "News",
            Reader::Overseas => "Overseas",
            Reader::Orders => "Orders",
        };
        write!(f, "{name}")
    }
}
