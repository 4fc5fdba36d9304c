// Whole runs of words by one word, over lent slices. These are helpers for the crates above: each requires lengths that agree, and room
// for a table, t, whose contents it leaves open. Each chooses its kernel before its loop, whose function has the width of the windows in its
// type: so there is a loop for each kernel, with the lookups written out in it.
#![tactic(auto)]

ghost use Rattle.std.specs.Prelude.{◌≡◌, map, ℕ, ◌+◌, ◌*◌, ◌%◌, ◌^◌, ◌<◌, ◌≤◌, length, set};
ghost use Rattle.theory_laws.specs.Table.{at};
ghost use Rattle.theory_laws.specs.Places.{ins};
ghost use Rattle.theory_field.specs.Field.{◌⊗◌};
ghost use Rattle.theory_field.specs.Words.{words};
ghost use Rattle.field_gf128.specs.Word.{word};
ghost use Rattle.theory_multilinear.specs.Fold.{line, fold_list};
ghost use Rattle.theory_multilinear.proofs.PassLoop.{turn};
ghost use Rattle.field_multiples.specs.helpers.Multiples.{Room};
ghost use Rattle.field_runs.specs.Runs.{plus_scaled, pass_list, doubled_at, doubled, Paired};
ghost use Rattle.field_runs.specs.helpers.Steps.{fold_steps, pass_steps, pair_stored};

use field_gf128::Word;
use field_multiples::{Kernel, Table};

// The first word of s, stored at the front of t. A caller's array that is lent here as room for a table is laid on a boundary of 16 bytes,
// since the compiler moves a word at once: then no entry straddles two lines of the cache, and a long run takes a tenth less.
pub fn align(t: &mut [u64], s: &[u64])
    requires { Room t.old × (1 < length s.now) }
    ensures { words t.new ≡ set (words t.old) 0 (at (words s.now) 0) }
{
    field_words::put(t, 0, field_words::get(s, 0));
}

// ---- word by word

// Every word times the factor.
fn scale_by<const BITS: u64>(s: &mut [u64], by: Table<'_, BITS>)
    requires { length s.old % 2 ≡ 0 }
    ensures { words s.new ≡ map (◌⊗◌ (word by.entry.factor)) (words s.old) }
{
    let n = s.len() / 2;
    for v in 0..n {
        let w = field_words::get(s, v);
        field_words::put(s, v, by.times(w));
    }
}

// Every word times r.
pub fn scale(s: &mut [u64], r: Word, t: &mut [u64])
    requires { (length s.old % 2 ≡ 0) × Room t.old }
    ensures { words s.new ≡ map (◌⊗◌ (word r)) (words s.old) }
{
    let n = s.len() / 2;
    // Tried: a `Kernel` that holds the table. It proves, but `fold` took 12 to 19% longer and `pass` 2 to 14%, since the compiler no longer knows
    // the table's place. So here and below.
    match field_multiples::prepare(t, n, r) {
        Kernel::Nibbles => scale_by::<4>(s, Table::of(t, r)),
        Kernel::Bytes => scale_by::<8>(s, Table::of(t, r)),
    }
}

// y += factor × x, word by word.
fn axpy_by<const BITS: u64>(y: &mut [u64], x: &[u64], by: Table<'_, BITS>)
    requires { (length y.old % 2 ≡ 0) × (length x.now ≡ length y.old) }
    ensures { words y.new ≡ plus_scaled (word by.entry.factor) (words y.old) (words x.now) }
{
    let n = y.len() / 2;
    for v in 0..n {
        let w = field_words::get(x, v);
        let p = by.times(w);
        let sum = field_gf128::add(field_words::get(y, v), p);
        field_words::put(y, v, sum);
    }
}

// y += r × x, word by word.
pub fn axpy(y: &mut [u64], x: &[u64], r: Word, t: &mut [u64])
    requires { (length y.old % 2 ≡ 0) × (length x.now ≡ length y.old) × Room t.old }
    ensures { words y.new ≡ plus_scaled (word r) (words y.old) (words x.now) }
{
    let n = y.len() / 2;
    match field_multiples::prepare(t, n, r) {
        Kernel::Nibbles => axpy_by::<4>(y, x, Table::of(t, r)),
        Kernel::Bytes => axpy_by::<8>(y, x, Table::of(t, r)),
    }
}

// ---- pair by pair. At bit i the pairs come in runs of 2^i: pair q + j of the run from q on has the places q + q + j and 2^i further on.

// The first place of pair q, where the places of a pair are `half` apart: q with a bit 0 put in there. For the crates above that take pairs one by one.
pub fn first(q: usize, half: usize) -> usize
    requires { (0 < half) × (q + q < 2 ^ 64) }
    ensures { (i : ℕ) → half ≡ 2 ^ i → result ≡ ins i 0 q }
{
    q + q - (q & (half - 1))
}

// a + factor × (a + b).
pub fn line_at<const BITS: u64>(by: Table<'_, BITS>, a: Word, b: Word) -> Word
    ensures { word result ≡ line (word by.entry.factor) (word a) (word b) }
{
    field_gf128::add(a, by.times(field_gf128::add(a, b)))
}

// The words of the fold by the factor that come of the run of pairs from q on.
fn fold_run<const BITS: u64>(
    out: &mut [u64],
    src: &[u64],
    q: usize,
    half: usize,
    by: Table<'_, BITS>,
)
    requires { (2 * (q + half) ≤ length out.old) × (length src.now ≡ 2 * length out.old) }
    ensures { words out.new ≡ fold_steps q half (word by.entry.factor) (words src.now) half (words out.old) }
{
    let lo = q + q;
    let hi = lo + half;
    for j in 0..half {
        let a = field_words::get(src, lo + j);
        let b = field_words::get(src, hi + j);
        let p = line_at(by, a, b);
        field_words::put(out, q + j, p);
    }
}

// The fold at variable i by the factor.
fn fold_by<const BITS: u64>(out: &mut [u64], src: &[u64], i: u64, by: Table<'_, BITS>)
    requires { Paired i (length src.now) × (length src.now ≡ 2 * length out.old) }
    ensures { words out.new ≡ fold_list i (word by.entry.factor) (words src.now) }
{
    let n = out.len() / 2;
    let half: usize = 1 << i;
    // No `for` over the runs, with their first pairs by a product: at variable 0 it takes 13% longer (11.4 ns a word in place of 10.1).
    let mut q = 0;
    while q < n {
        fold_run(out, src, q, half, by);
        q += half;
    }
}

// The fold at variable i by r.
pub fn fold(out: &mut [u64], src: &[u64], i: u64, r: Word, t: &mut [u64])
    requires { Paired i (length src.now) × (length src.now ≡ 2 * length out.old) × Room t.old }
    ensures { words out.new ≡ fold_list i (word r) (words src.now) }
{
    let n = out.len() / 2;
    match field_multiples::prepare(t, n, r) {
        Kernel::Nibbles => fold_by::<4>(out, src, i, Table::of(t, r)),
        Kernel::Bytes => fold_by::<8>(out, src, i, Table::of(t, r)),
    }
}

// factor × (a + b) added to the words a and b at two places. They are read again where they are stored, and not kept meanwhile.
fn add_to_pair<const BITS: u64>(s: &mut [u64], lo: usize, hi: usize, by: Table<'_, BITS>)
    requires { (lo < hi) × (2 * hi + 1 < length s.old) }
    ensures { words s.new ≡ turn lo hi (word by.entry.factor) (words s.old) }
{
    let sum = field_gf128::add(field_words::get(s, lo), field_words::get(s, hi));
    let p = by.times(sum);
    let a = field_words::get(s, lo);
    field_words::put(s, lo, field_gf128::add(a, p));
    let b = field_words::get(s, hi);
    field_words::put(s, hi, field_gf128::add(b, p));
}

// The encoder's pass by the factor on the run of pairs from q on.
fn pass_run<const BITS: u64>(s: &mut [u64], q: usize, half: usize, by: Table<'_, BITS>)
    requires { 2 * (q + q + half + half) ≤ length s.old }
    ensures { words s.new ≡ pass_steps q half (word by.entry.factor) half (words s.old) }
{
    let lo = q + q;
    let hi = lo + half;
    for j in 0..half {
        add_to_pair(s, lo + j, hi + j, by);
    }
}

// The encoder's pass at coordinate i by the factor, in place.
fn pass_by<const BITS: u64>(s: &mut [u64], i: u64, by: Table<'_, BITS>)
    requires { Paired i (length s.old) }
    ensures { words s.new ≡ pass_list i (word by.entry.factor) (words s.old) }
{
    let n = s.len() / 4;
    let half: usize = 1 << i;
    // No `for` over the runs, as in `fold_by`: at coordinate 0 it takes 6% longer (10.8 ns a pair in place of 10.2).
    let mut q = 0;
    while q < n {
        pass_run(s, q, half, by);
        q += half;
    }
}

// The encoder's pass at coordinate i by d, in place.
pub fn pass(s: &mut [u64], i: u64, d: Word, t: &mut [u64])
    requires { Paired i (length s.old) × Room t.old }
    ensures { words s.new ≡ pass_list i (word d) (words s.old) }
{
    let n = s.len() / 4;
    match field_multiples::prepare(t, n, d) {
        Kernel::Nibbles => pass_by::<4>(s, i, Table::of(t, d)),
        Kernel::Bytes => pass_by::<8>(s, i, Table::of(t, d)),
    }
}

// Pair q of neighbours of src, with factor × (a + b) added to its words a and b, stored in out. They are read again where they are stored, as above.
fn put_pair<const BITS: u64>(out: &mut [u64], src: &[u64], q: usize, by: Table<'_, BITS>)
    requires { (4 * q + 3 < length out.old) × (length src.now ≡ length out.old) }
    ensures { words out.new ≡ pair_stored q (word by.entry.factor) (words src.now) (words out.old) }
{
    let lo = q + q;
    let sum = field_gf128::add(field_words::get(src, lo), field_words::get(src, lo + 1));
    let p = by.times(sum);
    let a = field_words::get(src, lo);
    field_words::put(out, lo, field_gf128::add(a, p));
    let b = field_words::get(src, lo + 1);
    field_words::put(out, lo + 1, field_gf128::add(b, p));
}

// The encoder's pass at coordinate 0 by the factor, out of a table into another buffer.
fn pass_first_by<const BITS: u64>(out: &mut [u64], src: &[u64], by: Table<'_, BITS>)
    requires { Paired 0 (length out.old) × (length src.now ≡ length out.old) }
    ensures { words out.new ≡ pass_list 0 (word by.entry.factor) (words src.now) }
{
    let n = out.len() / 4;
    for q in 0..n {
        put_pair(out, src, q, by);
    }
}

// The encoder's pass at coordinate 0 by d, out of a table into another buffer.
pub fn pass_first(out: &mut [u64], src: &[u64], d: Word, t: &mut [u64])
    requires { Paired 0 (length out.old) × (length src.now ≡ length out.old) × Room t.old }
    ensures { words out.new ≡ pass_list 0 (word d) (words src.now) }
{
    let n = out.len() / 4;
    match field_multiples::prepare(t, n, d) {
        Kernel::Nibbles => pass_first_by::<4>(out, src, Table::of(t, d)),
        Kernel::Bytes => pass_first_by::<8>(out, src, Table::of(t, d)),
    }
}

// ---- an equality table

// Entry v of n, times the factor, put n places on, and added to it.
fn double_entry<const BITS: u64>(a: &mut [u64], v: usize, n: usize, by: Table<'_, BITS>)
    requires { (v < n) × (2 * (n + n) ≤ length a.old) }
    ensures { words a.new ≡ doubled_at v n (word by.entry.factor) (words a.old) }
{
    let e = field_words::get(a, v);
    let p = by.times(e);
    field_words::put(a, n + v, p);
    field_words::put(a, v, field_gf128::add(e, p));
}

// An equality table of n entries doubled by one more coordinate, the factor.
fn eq_double_by<const BITS: u64>(a: &mut [u64], n: usize, by: Table<'_, BITS>)
    requires { 2 * (n + n) ≤ length a.old }
    ensures { words a.new ≡ doubled n (word by.entry.factor) (words a.old) }
{
    for v in 0..n {
        double_entry(a, v, n, by);
    }
}

// An equality table of n entries doubled by one more coordinate, z.
pub fn eq_double(a: &mut [u64], n: usize, z: Word, t: &mut [u64])
    requires { (2 * (n + n) ≤ length a.old) × Room t.old }
    ensures { words a.new ≡ doubled n (word z) (words a.old) }
{
    match field_multiples::prepare(t, n, z) {
        Kernel::Nibbles => eq_double_by::<4>(a, n, Table::of(t, z)),
        Kernel::Bytes => eq_double_by::<8>(a, n, Table::of(t, z)),
    }
}
