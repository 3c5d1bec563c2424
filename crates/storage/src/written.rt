// What an accepted write answers: how many events it stored, and the ring's size afterwards.
#[derive(Clone, Copy, PartialEq, Eq, Debug)]
pub struct Written {
    pub count: usize,
    pub size: usize,
}
