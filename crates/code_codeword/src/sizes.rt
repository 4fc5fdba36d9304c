// Sizes and lent lengths. These are helpers for this crate and those above: each requires that its power is small.
ghost use Rattle.std.specs.Prelude.{◌≡◌, ◌*◌, ◌/◌, ◌^◌, ◌<◌, ◌≤◌, eqb};

// A power of two.
pub fn power(e: usize) -> usize
    requires { e < 64 }
    ensures { result ≡ 2 ^ e }
{
    1 << e
}

// Whether a lent length is that of 2^e words.
pub fn holds(halves: usize, e: usize) -> bool
    requires { e ≤ 24 }
    ensures { result ≡ eqb halves (2 * 2 ^ e) }
{
    halves == 2 * power(e)
}

// Whether a lent length is that of half of 2^e words, rounded down.
pub fn holds_half(halves: usize, e: usize) -> bool
    requires { e ≤ 24 }
    ensures { result ≡ eqb halves (2 * (2 ^ e / 2)) }
{
    halves == 2 * (power(e) / 2)
}
