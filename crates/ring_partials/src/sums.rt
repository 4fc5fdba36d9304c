// Sums over the bits of words in lent slices. These are helpers for the entries here and in the crates above: each requires that
// its slices are as long as it says.
ghost use Rattle.std.specs.Prelude.{◌≡◌, ◌+◌, ◌*◌, ◌/◌, ◌%◌, ◌^◌, ◌≤◌, ◌<◌, length};
ghost use Rattle.theory_laws.specs.Table.{tab, at};
ghost use Rattle.theory_field.specs.Words.{words};
ghost use Rattle.field_gf128.specs.Word.{word};
ghost use Rattle.theory_multilinear.specs.Partials.{partial, fold_partials};
ghost use Rattle.field_pack.specs.Phi.{coefficients};
ghost use Rattle.ring_partials.specs.helpers.Buckets.{gathered, Gathered};

use field_gf128::Word;
use field_pack::bits::{nibble, select};
use field_pack::sums::sum_of;

// Adds e to a bucket for each nibble of a half, the lowest nibble in row `from`.
fn gather_half(buckets: &mut [u64; 1024], from: usize, half: u64, e: Word)
    requires { from ≤ 16 }
    ensures { Gathered (half * 2 ^ (4 * from)) (word e) (words buckets.old) (words buckets.new) }
{
    for i in 0..16 {
        let k = (from + i) * 16 + nibble(half, i);
        let sum = field_gf128::add(field_words::get(buckets, k), e);
        field_words::put(buckets, k, sum);
    }
}

// Adds e to a bucket for each nibble of w.
fn gather(buckets: &mut [u64; 1024], w: Word, e: Word)
    ensures { Gathered (word w) (word e) (words buckets.old) (words buckets.new) }
{
    gather_half(buckets, 0, w.lo, e);
    gather_half(buckets, 16, w.hi, e);
}

// What the buckets hold for bit b.
fn bucket_sum(buckets: &[u64; 1024], b: usize) -> Word
    requires { b < 128 }
    ensures { word result ≡ gathered (words buckets.now) b }
{
    sum_of(16, |x| {
        let e = field_words::get(buckets, b / 4 * 16 + x);
        select((x as u64 >> (b % 4)) & 1, e)
    })
}

// The 128 partial sums over words and as many entries, by buckets: an entry is added once for each nibble of its word, and not
// once for each bit.
pub fn partials(ws: &[u64], es: &[u64], out: &mut [u64])
    requires { (length es.now ≡ length ws.now) × (length out.old ≡ 256) }
    ensures { words out.new ≡ tab 128 (partial (length ws.now / 2) (at (words ws.now)) (at (words es.now))) }
{
    let mut buckets = [0u64; 1024];
    for v in 0..ws.len() / 2 {
        gather(
            &mut buckets,
            field_words::get(ws, v),
            field_words::get(es, v),
        );
    }
    for b in 0..128 {
        field_words::put(out, b, bucket_sum(&buckets, b));
    }
}

// The fold of 128 words: the sum over j of x^j times phi of s_j, from the highest j down. These are many words under one set of coefficients, so
// tables of phi are filled for them.
pub fn fold(s: &[u64], rb: [Word; 128]) -> Word
    requires { length s.now ≡ 256 }
    ensures { word result ≡ fold_partials (at (words s.now)) (coefficients rb) }
{
    let t = field_pack::phi_tab(rb);
    let mut acc = Word { lo: 0, hi: 0 };
    for j in (0..128).rev() {
        acc = field_gf128::add(
            field_gf128::double(acc),
            field_pack::phi_tab_apply(&t, field_words::get(s, j)),
        );
    }
    acc
}
