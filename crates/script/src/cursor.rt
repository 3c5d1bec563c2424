ghost use Rattle.std.specs.Prelude.{◌≤◌, ◌+◌, [], ◌∷◌, length, decimal};
ghost use Rattle.script.specs.Lines.{spaced};
ghost use Rattle.script.specs.Written.{Writes};

use crate::number::digits;

// An output, and the place where the next text goes.
#[derive(Drop)]
pub(crate) struct Cursor<'a> {
    pub(crate) out: &'a mut [u8],
    pub(crate) at: usize,
}

// In line, all of them: out of line the place would go to memory and back for each byte and number.
impl<'a> Cursor<'a> {
    #[inline(always)]
    pub(crate) fn byte(&mut self, byte: u8)
        requires { self.old.at + 1 ≤ length self.old.out.now }
        ensures { Writes self.old self.new (byte ∷ []) }
    {
        self.out[self.at] = byte;
        self.at += 1;
    }

    #[inline(always)]
    pub(crate) fn text(&mut self, text: &[u8])
        requires { self.old.at + length text.now ≤ length self.old.out.now }
        ensures { Writes self.old self.new text.now }
    {
        let end = self.at + text.len();
        self.out[self.at..end].copy_from_slice(text);
        self.at = end;
    }

    // Writes `n` in decimal.
    #[inline(always)]
    pub(crate) fn number(&mut self, n: usize)
        requires { self.old.at + length (decimal n) ≤ length self.old.out.now }
        ensures { Writes self.old self.new (decimal n) }
    {
        // no logarithm and no call for what is one byte
        if n < 10 {
            self.byte(b'0' + n as u8);
            return;
        }
        let end = self.at + digits(n);
        itoa::write_digits(n as u64, self.out, end);
        self.at = end;
    }

    // Writes the events, each with a space before it.
    #[inline(always)]
    pub(crate) fn events(&mut self, events: &[u32])
        requires { self.old.at + length (spaced events.now) ≤ length self.old.out.now }
        ensures { Writes self.old self.new (spaced events.now) }
    {
        for event in events {
            self.byte(b' ');
            self.number(*event as usize);
        }
    }
}
