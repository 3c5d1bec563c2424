ghost use Rattle.std.specs.Prelude.{◌≡◌, ◌≤◌, length, decimal};

// How many digits `n` has in decimal.
pub(crate) fn digits(n: usize) -> usize
    ensures value { result ≡ length (decimal n) }
    ensures bound { result ≤ 20 }
{
    if n < 10 { 1 } else { n.ilog10() as usize + 1 }
}
