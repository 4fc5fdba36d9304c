// Words in a lent slice of u64, the low half first. These are helpers for the crates above: all but `clear` require.
#![tactic(auto)]

ghost use Rattle.std.specs.Prelude.{◌≡◌, ◌+◌, ◌*◌, ◌^◌, ◌≤◌, ◌<◌, length, set};
ghost use Rattle.theory_laws.specs.Table.{tab, at};
ghost use Rattle.theory_field.specs.Words.{words};
ghost use Rattle.field_gf128.specs.Word.{word};

use field_gf128::Word;

// Word k of the slice.
pub fn get(s: &[u64], k: usize) -> Word
    requires { 2 * k + 1 < length s.now }
    ensures { word result ≡ at (words s.now) k }
{
    Word {
        lo: s[2 * k],
        hi: s[2 * k + 1],
    }
}

// w stored as word k of the slice.
pub fn put(s: &mut [u64], k: usize, w: Word)
    requires { 2 * k + 1 < length s.old }
    ensures { words s.new ≡ set (words s.old) k (word w) }
{
    s[2 * k] = w.lo;
    s[2 * k + 1] = w.hi;
}

// The length in u64 of a lent table of 2^n words.
pub fn table_len(n: usize) -> usize
    requires { n ≤ 20 }
    ensures { result ≡ 2 * 2 ^ n }
{
    2 << n
}

// The halves of a slice, copied.
pub fn copy(from: &[u64], to: &mut [u64])
    requires { length to.old ≡ length from.now }
    ensures { to.new ≡ from.now }
{
    // no `copy_from_slice`, for the reason that `bytes_numbers::put` names
    for i in 0..from.len() {
        to[i] = from[i];
    }
}

// Every half set to 0.
pub fn clear(s: &mut [u64])
    ensures { s.new ≡ tab (length s.old) (λ _. 0) }
{
    s.fill(0);
}
