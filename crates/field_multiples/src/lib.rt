// Products by one fixed word r, by a table of its multiples that the caller lends. These are helpers for the crates above: each
// requires room for the table, or a table that is ready.
#![tactic(auto)]

ghost use Rattle.std.specs.Prelude.{◌≡◌, ℕ, suc, ◌+◌, ◌*◌, ◌%◌, ◌^◌, ◌<◌, ◌≤◌, length};
ghost use Rattle.theory_laws.specs.Table.{at};
ghost use Rattle.theory_field.specs.Field.{◌⊗◌};
ghost use Rattle.theory_field.specs.Words.{words};
ghost use Rattle.field_gf128.specs.Word.{word};
ghost use Rattle.field_multiples.specs.helpers.Multiples.{Multiples, Room, Ready};
ghost use Rattle.field_multiples.specs.helpers.Kernels.{bits_of};
ghost use Rattle.field_multiples.specs.helpers.Rows.{Copied, Row};

use field_gf128::Word;
pub use table::Table;

mod table;

// How products by one word are made: by windows of 4 bits, 32 rows of 16 multiples; or by windows of 8 bits, 16 rows of 256.
#[derive(Clone, Copy, Debug, PartialEq, Eq)]
pub enum Kernel {
    Nibbles,
    Bytes,
}

// The n words from a place on, each plus d, copied behind them.
fn copy_plus(t: &mut [u64], from: usize, n: usize, d: Word)
    requires { 2 * (from + n + n) ≤ length t.old }
    ensures { Copied from n n (word d) (words t.old) (words t.new) }
{
    for k in 0..n {
        let w = field_gf128::add(field_words::get(t, from + k), d);
        field_words::put(t, from + n + k, w);
    }
}

// The row of w from a place on: its products with the numbers of b bits. The result is the next row's word, w times x^b.
fn row(t: &mut [u64], b: u64, from: usize, w: Word) -> Word
    requires { (b < 64) × (2 * (from + 2 ^ b) ≤ length t.old) }
    ensures { (word result ≡ word w ⊗ 2 ^ b) × Row b from (word w) (words t.old) (words t.new) }
{
    field_words::put(t, from, Word { lo: 0, hi: 0 });
    let mut d = w;
    let mut n: usize = 1;
    for _i in 0..b {
        copy_plus(t, from, n, d);
        d = field_gf128::double(d);
        n = n + n;
    }
    d
}

// The multiples of r, in rows for windows of b bits.
fn fill(t: &mut [u64], b: u64, rows: usize, r: Word)
    requires { (0 < b) × (b < 64) × (b * rows ≤ 128) × (2 * (rows * 2 ^ b) ≤ length t.old) }
    ensures { Multiples b (rows * 2 ^ b) (word r) (words t.new) }
{
    let mut d = r;
    for j in 0..rows {
        d = row(t, b, j << b, d);
    }
}

// The entry of row j at the low window of x.
fn entry(t: &[u64], b: u64, j: usize, x: u64) -> Word
    requires { (b < 64) × (2 * (suc j * 2 ^ b) ≤ length t.now) }
    ensures { word result ≡ at (words t.now) (j * 2 ^ b + x % 2 ^ b) }
{
    field_words::get(t, (j << b) + (x & ((1 << b) - 1)) as usize)
}

// The product with half a word, h, whose n windows go by the rows from j on.
fn half(t: &[u64], b: u64, n: usize, j: usize, h: u64) -> Word
    requires { (b < 64) × (b * n ≡ 64) × (2 * ((j + n) * 2 ^ b) ≤ length t.now) }
    ensures { (r : ℕ) → Multiples b ((j + n) * 2 ^ b) r (words t.now) → word result ≡ r ⊗ (h * 2 ^ (b * j)) }
{
    let mut p = Word { lo: 0, hi: 0 };
    let mut x = h;
    for i in 0..n {
        p = field_gf128::add(p, entry(t, b, j + i, x));
        x = x >> b;
    }
    p
}

// The product with w, n windows to each half. The high half comes first: the compiler then leaves both in plain registers.
fn windows(t: &[u64], b: u64, n: usize, w: Word) -> Word
    requires { (b < 64) × (b * n ≡ 64) × (2 * ((n + n) * 2 ^ b) ≤ length t.now) }
    ensures { (r : ℕ) → Multiples b ((n + n) * 2 ^ b) r (words t.now) → word result ≡ r ⊗ word w }
{
    field_gf128::add(half(t, b, n, n, w.hi), half(t, b, n, 0, w.lo))
}

// The kernel that is quickest for n products by r, and its table. The bound is where the times cross, the filling counted.
pub fn prepare(t: &mut [u64], n: usize, r: Word) -> Kernel
    requires { Room t.old }
    ensures { Ready (bits_of result) (word r) t.new }
{
    if n < 384 {
        fill(t, 4, 32, r);
        return Kernel::Nibbles;
    }
    fill(t, 8, 16, r);
    Kernel::Bytes
}
