ghost use Rattle.std.specs.Prelude.{◌≡◌, ◌+◌, ◌-◌, ◌%◌, ◌<◌, ◌≤◌};

// A place of the ring, with the ring's size.
#[derive(Clone, Copy)]
pub struct CircularIndex {
    pub(crate) index: usize,
    pub(crate) size: usize,
    ghost within: { index < size },
    ghost small: { size ≤ 1048576 },
}

impl CircularIndex {
    // What the type says is owed where one is made: here, and where a size comes in.
    pub(crate) fn new(index: usize, size: usize) -> Self
        requires within { index < size }
        requires small { size ≤ 1048576 }
        ensures index { result.index ≡ index }
        ensures size { result.size ≡ size }
    {
        CircularIndex { index, size }
    }

    pub(crate) fn at_end(size: usize) -> Self
        requires some { 0 < size }
        requires small { size ≤ 1048576 }
        ensures index { result.index ≡ size - 1 }
        ensures size { result.size ≡ size }
    {
        CircularIndex::new(size - 1, size)
    }

    // The place so many further on. Nothing here needs it; the rules name both directions, and shrev has both.
    pub(crate) fn add(self, rhs: usize) -> usize
        requires { rhs < self.size }
        ensures { result ≡ (self.index + rhs) % self.size }
    {
        (self.index + rhs) % self.size
    }

    // The place so many before: adds size first, so that nothing falls below zero.
    pub(crate) fn sub(self, rhs: usize) -> usize
        requires { rhs < self.size }
        ensures { result ≡ (self.size - rhs + self.index) % self.size }
    {
        (self.size - rhs + self.index) % self.size
    }

    // The place after, without a division.
    pub(crate) fn step(self) -> Self
        ensures index { result.index ≡ (self.index + 1) % self.size }
        ensures size { result.size ≡ self.size }
    {
        let after = self.index + 1;
        let index = if after == self.size { 0 } else { after };
        CircularIndex::new(index, self.size)
    }

    // The same place in a ring that has grown.
    pub(crate) fn resized(self, size: usize) -> Self
        requires more { self.size ≤ size }
        requires small { size ≤ 1048576 }
        ensures index { result.index ≡ self.index }
        ensures size { result.size ≡ size }
    {
        CircularIndex::new(self.index, size)
    }
}
