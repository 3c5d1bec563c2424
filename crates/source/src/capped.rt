ghost use Rattle.std.specs.Prelude.{◌≡◌, ◌∷◌, take};

use crate::Source;

// At most so many events of the source below.
#[derive(Drop)]
pub struct Capped<S> {
    below: S,
    left: usize,
}

impl<S> Capped<S> {
    pub fn new(below: S, most: usize) -> Self
        ensures { (result.below ≡ below) × (result.left ≡ most) }
    {
        Capped { below, left: most }
    }

    // The source below, as it now is.
    pub fn into_inner(self) -> S
        ensures { result ≡ self.below }
    {
        self.below
    }
}

impl<E, S: Source<E>> Source<E> for Capped<S> {
    ghost means = { λ s. take s.left (S.Source.means s.below) };

    ghost beneath = { λ s. S.Source.means s.below ∷ S.Source.beneath s.below };

    fn len(&self) -> usize {
        self.left.min(self.below.len())
    }

    fn next(&mut self) -> Option<E> {
        if self.left == 0 {
            return None;
        }
        let event = self.below.next()?;
        self.left -= 1;
        Some(event)
    }
}
