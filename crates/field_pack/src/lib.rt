// Packing of bits into words and phi under row coefficients, after pack.rs: a `Vec` becomes a lent slice, a panic a refusal.
#![tactic(auto)]

ghost use Rattle.std.specs.Prelude.{◌≡◌, ℕ, ◌+◌, ◌*◌, ◌/◌, ◌%◌, ◌^◌, ◌≤◌, ◌<◌, true, length};
ghost use Rattle.theory_laws.specs.Xor.{sel};
ghost use Rattle.theory_laws.specs.Sum.{sum};
ghost use Rattle.theory_laws.specs.Table.{at};
ghost use Rattle.theory_laws.specs.Questions.{on_done};
ghost use Rattle.theory_laws.specs.Refusals.{answered};
ghost use Rattle.theory_multilinear.specs.Partials.{word_of};
ghost use Rattle.theory_multilinear.specs.Equality.{eq_table};
ghost use Rattle.theory_multilinear.specs.Phi.{phi};
ghost use Rattle.theory_field.specs.Words.{words};
ghost use Rattle.field_gf128.specs.Word.{word};
ghost use Rattle.field_runs.specs.Runs.{doubled};
ghost use Rattle.field_pack.specs.Pack.{all_bits, pack_number, packed};
ghost use Rattle.field_pack.specs.Phi.{numbers, coefficients, phi_tab, chosen};

use crate::bits::{nibble, select};
use crate::sums::sum_of;
use field_gf128::Word;
use theory_laws::Refusal;

pub mod bits;
pub mod sums;

// Is each byte 0 or 1?
fn all_bits(bytes: &[u8]) -> bool
    ensures { result ≡ all_bits bytes.now }
{
    // No `all` over the bytes: it takes five instructions for a byte where this takes three.
    for i in 0..bytes.len() {
        if bytes[i] > 1 {
            return false;
        }
    }
    true
}

// The questions for these bytes and a lent output of `len` u64.
#[tactic(auto, using(theory_laws::proofs::Questions::asks), unfolding(crate::specs::Pack::pack_number))]
fn questions(bytes: &[u8], len: usize) -> Result<(), Refusal>
    ensures { answered result ≡ pack_number bytes.now len }
{
    if bytes.len() % 128 != 0 {
        return Err(Refusal::NotWholeWords);
    }
    if !all_bits(bytes) {
        return Err(Refusal::NotBits);
    }
    if len != 2 * (bytes.len() / 128) {
        return Err(Refusal::Length);
    }
    Ok(())
}

// 64 bytes from `from` on, byte b giving bit b.
fn pack_half(bytes: &[u8], from: usize) -> u64
    requires from_in_bounds { from + 64 ≤ length bytes.now }
    requires bytes_value { all_bits bytes.now ≡ true }
    ensures { result ≡ sum 64 (λ b. sel (at bytes.now (from + b)) (2 ^ b)) }
{
    let mut half: u64 = 0;
    for b in 0..64 {
        half ^= u64::from(bytes[from + b]) << b;
    }
    half
}

// The 128 bytes of a group that begins at `from`.
fn pack_bytes_le(bytes: &[u8], from: usize) -> Word
    requires from_in_bounds { from + 128 ≤ length bytes.now }
    requires bytes_value { all_bits bytes.now ≡ true }
    ensures { word result ≡ word_of (λ b. at bytes.now (from + b)) }
{
    Word {
        lo: pack_half(bytes, from),
        hi: pack_half(bytes, from + 64),
    }
}

// Every group of bytes packed into its word.
fn pack_groups(bytes: &[u8], out: &mut [u64])
    requires out_len { length out.old ≡ 2 * (length bytes.now / 128) }
    requires bytes_value { all_bits bytes.now ≡ true }
    ensures { words out.new ≡ packed bytes.now }
{
    let n = bytes.len() / 128;
    for v in 0..n {
        field_words::put(out, v, pack_bytes_le(bytes, 128 * v));
    }
}

// Packs each group of 128 bytes, byte b giving bit b, into the words of `out`. Refuses with 2 where the byte count is no
// multiple of 128, with 3 where a byte is above 1, with 5 where `out` is not exactly as long as the words; `out` then stays.
pub fn pack_table(bytes: &[u8], out: &mut [u64]) -> Result<(), Refusal>
    ensures value { answered result ≡ pack_number bytes.now (length out.old) }
    ensures out_after { words out.new ≡ on_done (answered result) (packed bytes.now) (words out.old) }
{
    questions(bytes, out.len())?;
    pack_groups(bytes, out);
    Ok(())
}

// phi of a half that stands in its word from bit `from` on. Only set bits cost: the lowest one that is left goes, until none is.
fn phi_half(half: u64, from: usize, c: &[Word; 128]) -> Word
    requires { from ≤ 64 }
    ensures { word result ≡ phi (coefficients c.now) (half * 2 ^ from) }
{
    let mut acc = Word { lo: 0, hi: 0 };
    let mut left = half;
    // No `for`: the bits that are left say which turn is next and whether there is one, and a `for` over 64 places would cost the unset bits too.
    while left != 0 {
        let x = c[from + left.trailing_zeros() as usize];
        acc = field_gf128::add(acc, x);
        left &= left - 1;
    }
    acc
}

// phi of one word under row coefficients c: the sum of c[b] over the set bits b. Fills no table. Of a sum of two words it is the sum of both, and of
// the word x^b it is c[b] (`PhiLaws`, where phi is defined).
pub fn phi_c(w: Word, c: [Word; 128]) -> Word
    ensures { word result ≡ phi (coefficients c) (word w) }
{
    field_gf128::add(phi_half(w.lo, 0, &c), phi_half(w.hi, 64, &c))
}

// Word k of the tables of row coefficients c: the sum of the four coefficients of its table that the set bits of k choose.
fn table_word(c: &[Word; 128], k: usize) -> Word
    requires { k < 512 }
    ensures { word result ≡ phi (coefficients c.now) (k % 16 * 2 ^ (4 * (k / 16))) }
{
    sum_of(4, |i| select((k as u64 >> i) & 1, c[4 * (k / 16) + i]))
}

// The tables of row coefficients c: entry v of table j, word 16 × j + v, is the sum of c[4 × j + i] over the set bits i of v.
pub fn phi_tab(c: [Word; 128]) -> [u64; 1024]
    ensures { words result ≡ phi_tab (coefficients c) }
{
    let mut t = [0u64; 1024];
    for k in 0..512 {
        field_words::put(&mut t, k, table_word(&c, k));
    }
    t
}

// The sum of the entries that the 16 nibbles of a half choose, the lowest nibble in table `from`.
fn apply_half(t: &[u64; 1024], from: usize, half: u64) -> Word
    requires { from ≤ 16 }
    ensures { word result ≡ sum 16 (λ i. at (words t.now) ((from + i) * 16 + half / 2 ^ (4 * i) % 16)) }
{
    sum_of(
        16,
        |i| field_words::get(t, (from + i) * 16 + nibble(half, i)),
    )
}

// phi of a word by tables: of those that `phi_tab` makes of row coefficients c it is what `phi_c` gives.
pub fn phi_tab_apply(t: &[u64; 1024], w: Word) -> Word
    ensures result_value { word result ≡ chosen (words t.now) (word w) }
    ensures by_index { (c : ℕ → ℕ) → words t.now ≡ phi_tab c → word result ≡ phi c (word w) }
{
    field_gf128::add(apply_half(t, 0, w.lo), apply_half(t, 16, w.hi))
}

// One coordinate more: each of the first n entries e becomes e + e × z, and e × z goes n places further.
fn double_entries(c: &mut [Word; 128], n: usize, z: Word)
    requires { n ≤ 64 }
    ensures { numbers c.new ≡ doubled n (word z) (numbers c.old) }
{
    for v in 0..n {
        let e = c[v];
        let t = field_gf128::mul(e, z);
        c[n + v] = t;
        c[v] = field_gf128::add(e, t);
    }
}

// The row coefficients of 7 coordinates: entry b is the product over j of r[j] where bit j of b is 1, else 1 + r[j]. What the partials are, summed with
// them, is stated in ring_identities (specs/Identities).
pub fn eq_coefficients(r: [Word; 7]) -> [Word; 128]
    ensures { numbers result ≡ eq_table (numbers r) }
{
    let zero = Word { lo: 0, hi: 0 };
    let mut c = [zero; 128];
    c[0] = Word { lo: 1, hi: 0 };
    let mut n: usize = 1;
    for z in &r {
        double_entries(&mut c, n, *z);
        n = n + n;
    }
    c
}
