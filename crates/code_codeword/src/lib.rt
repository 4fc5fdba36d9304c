// The code, after code.rs: the shifts L(eps), the codeword of a table, and folds. A table of words is lent as u64 halves, two to a word,
// the low half first. A refused call changes no lent byte. The methods of `Code` require: `coordinate`, `shift_table` and `encode_block` are helpers for
// the crate that makes parts of the codeword one by one.
#![tactic(auto)]

ghost use Rattle.std.specs.Prelude.{◌≡◌, ◌+◌, ◌*◌, ◌^◌, ◌<◌, ◌≤◌, length};
ghost use Rattle.theory_laws.specs.Questions.{on_done};
ghost use Rattle.theory_laws.specs.Refusals.{answered};
ghost use Rattle.theory_field.specs.Words.{words};
ghost use Rattle.field_gf128.specs.Word.{word};
ghost use Rattle.theory_multilinear.specs.Fold.{fold_list};
ghost use Rattle.theory_multilinear.specs.Codeword as C;
ghost use Rattle.theory_code.specs.Questions.{encode_number, shift_number, fold_number, earlier_number};
ghost use Rattle.code_codeword.specs.Answers.{block_of, encoded_of, folded, folded_of, dropped_of};
ghost use Rattle.code_codeword.specs.helpers.Sizes.{ShiftSizes, Below};
ghost use Rattle.code_codeword.specs.helpers.Shifted.{Passes};

pub mod coordinates;
pub mod folding;
pub mod sizes;

use coordinates::{all_coordinates, are_unfolded, drop_coordinate};
use field_gf128::Word;
use field_words::copy;
use folding::fold_within;
use sizes::{holds, holds_half, power};
use theory_laws::Refusal;

// A code: n, k, and its k × n gammas, lent with j outer.
#[derive(Clone, Copy)]
pub struct Code<'a> {
    pub n: usize,
    pub k: usize,
    pub gammas: &'a [u64],
    ghost sizes: { ShiftSizes n k (length gammas.now) },
}

impl Code<'_> {
    // Coordinate i of L(eps): the sum of the gammas (j, i) over the set bits j of eps.
    pub fn coordinate(&self, eps: usize, i: usize) -> Word
        requires { i < self.now.n }
        ensures { word result ≡ C.shift_at self.now.n self.now.k (words self.now.gammas.now) eps i }
    {
        let mut d = Word { lo: 0, hi: 0 };
        for j in 0..self.k {
            if (eps >> j) % 2 == 1 {
                d = field_gf128::add(d, field_words::get(self.gammas, j * self.n + i));
            }
        }
        d
    }

    // L(eps) at a list of coordinates.
    fn shift_over(&self, eps: usize, coordinates: &[usize], out: &mut [u64])
        requires { Below self.now.n coordinates.now × (length out.old ≡ 2 * length coordinates.now) }
        ensures { words out.new ≡ C.shift_over self.now.n self.now.k (words self.now.gammas.now) coordinates.now eps }
    {
        for (i, c) in coordinates.iter().enumerate() {
            let d = self.coordinate(eps, *c);
            field_words::put(out, i, d);
        }
    }

    // A table of 2^m words that has the passes at its first `from` coordinates by those of L(eps) gets the others, in its place. t is room for a pass's
    // products.
    pub fn shift_table(&self, from: usize, m: usize, eps: usize, out: &mut [u64], t: &mut [u64])
        requires { (from ≤ m) × (m ≤ self.now.n) × (length out.old ≡ 2 * 2 ^ m) × (length t.old ≡ 8192) }
        ensures { Passes from m self.now.n self.now.k (words self.now.gammas.now) eps (words out.old) (words out.new) }
    {
        for i in from..m {
            let d = self.coordinate(eps, i);
            field_runs::pass(out, i as u64, d, t);
        }
    }

    // Any block of the codeword: the first pass takes the table's words into the block, and the others are done in place.
    fn shift_block(&self, eps: usize, table: &[u64], out: &mut [u64], multiples: &mut [u64])
        requires { (length table.now ≡ 2 * 2 ^ self.now.n) × (length out.old ≡ 2 * 2 ^ self.now.n) × (length multiples.old ≡ 8192) }
        ensures { words out.new ≡ block_of self.now.n self.now.k (words self.now.gammas.now) eps (words table.now) }
    {
        if self.n == 0 {
            copy(table, out);
        } else {
            let d = self.coordinate(eps, 0);
            field_runs::pass_first(out, table, d, multiples);
            self.shift_table(1, self.n, eps, out, multiples);
        }
    }

    // Block eps of the codeword: block 0 is the table. A helper for this crate and for those above: it requires the sizes that are asked for.
    pub fn encode_block(&self, eps: usize, table: &[u64], out: &mut [u64], multiples: &mut [u64])
        requires { (length table.now ≡ 2 * 2 ^ self.now.n) × (length out.old ≡ 2 * 2 ^ self.now.n) × (length multiples.old ≡ 8192) }
        ensures { words out.new ≡ block_of self.now.n self.now.k (words self.now.gammas.now) eps (words table.now) }
    {
        if eps != 0 {
            self.shift_block(eps, table, out, multiples);
        } else {
            copy(table, out);
        }
    }

    // The codeword, block after block.
    fn encode_blocks(&self, table: &[u64], out: &mut [u64])
        requires { (length table.now ≡ 2 * 2 ^ self.now.n) × (length out.old ≡ 2 * 2 ^ (self.now.n + self.now.k)) }
        ensures { words out.new ≡ C.encode self.now.n self.now.k (words self.now.gammas.now) (words table.now) }
    {
        let mut multiples = [0u64; 8192];
        field_runs::align(&mut multiples, table);
        let size = table.len();
        let count = power(self.k);
        for eps in 0..count {
            let from = eps * size;
            let to = from + size;
            self.encode_block(eps, table, &mut out[from..to], &mut multiples);
        }
    }
}

// ---- the shifts

// The questions of `l_of`.
fn l_of_questions(
    n: usize,
    k: usize,
    original: usize,
    coordinates: &[usize],
    gammas: usize,
    out: usize,
) -> Result<(), Refusal>
    ensures { answered result ≡ shift_number n k original coordinates.now gammas out }
{
    if n > 20 {
        return Err(Refusal::Parameters);
    }
    if k > 4 {
        return Err(Refusal::Parameters);
    }
    if original > 20 {
        return Err(Refusal::Parameters);
    }
    if gammas != 2 * (k * original) {
        return Err(Refusal::Length);
    }
    if out != 2 * n {
        return Err(Refusal::Length);
    }
    if !are_unfolded(n, original, coordinates) {
        return Err(Refusal::Coordinates);
    }
    Ok(())
}

// L(eps) of a codeword in use, a point of n coordinates, of k × n gammas for the original n, lent with j outer: its coordinates at those of the
// list, which are not folded away. It refuses n or an original n past 20 or k past 4 with 4, lengths that are not theirs with 5, and a list that does not
// hold exactly n strictly rising numbers below the original n with 36.
pub fn l_of(
    n: usize,
    k: usize,
    original: usize,
    eps: usize,
    coordinates: &[usize],
    gammas: &[u64],
    out: &mut [u64],
) -> Result<(), Refusal>
    ensures value { answered result ≡ shift_number n k original coordinates.now (length gammas.now) (length out.old) }
    ensures out_after { words out.new
        ≡ on_done (answered result) (C.shift_over original k (words gammas.now) coordinates.now eps) (words out.old) }
{
    l_of_questions(n, k, original, coordinates, gammas.len(), out.len())?;
    let code = Code {
        n: original,
        k,
        gammas,
    };
    code.shift_over(eps, coordinates, out);
    Ok(())
}

// The questions of `earlier_reading`.
fn earlier_questions(
    n: usize,
    k: usize,
    original: usize,
    coordinates: &[usize],
) -> Result<(), Refusal>
    ensures { answered result ≡ earlier_number n k original coordinates.now }
{
    if n > 20 {
        return Err(Refusal::Parameters);
    }
    if k > 4 {
        return Err(Refusal::Parameters);
    }
    if original > 20 {
        return Err(Refusal::Parameters);
    }
    if !are_unfolded(n, original, coordinates) {
        return Err(Refusal::Coordinates);
    }
    Ok(())
}

// A codeword in use as it was read earlier, and as the Rust reads it: its list becomes 0 to n - 1, whichever variables were folded away, and all else
// stays. There is no way back. It refuses n or an original n past 20 or k past 4 with 4, and a list that does not hold exactly n strictly rising
// numbers below the original n with 36.
pub fn earlier_reading(
    n: usize,
    k: usize,
    original: usize,
    coordinates: &mut [usize],
) -> Result<(), Refusal>
    ensures value { answered result ≡ earlier_number n k original coordinates.old }
    ensures coordinates_after { coordinates.new ≡ on_done (answered result) (C.all_coordinates n) coordinates.old }
{
    earlier_questions(n, k, original, coordinates)?;
    all_coordinates(coordinates);
    Ok(())
}

// ---- the codeword

// The questions of `encode`.
fn encode_questions(
    n: usize,
    k: usize,
    table: usize,
    gammas: usize,
    out: usize,
) -> Result<(), Refusal>
    ensures { answered result ≡ encode_number n k table gammas out }
{
    if n > 20 {
        return Err(Refusal::Parameters);
    }
    if k > 4 {
        return Err(Refusal::Parameters);
    }
    if !holds(table, n) {
        return Err(Refusal::Length);
    }
    if gammas != 2 * (k * n) {
        return Err(Refusal::Length);
    }
    if !holds(out, n + k) {
        return Err(Refusal::Length);
    }
    Ok(())
}

// The codeword of a table of 2^n words: entry eps × 2^n + v is P(v + L(eps)). It refuses n past 20 or k past 4 with 4, and lengths that
// are not theirs with 5.
pub fn encode(
    n: usize,
    k: usize,
    table: &[u64],
    gammas: &[u64],
    out: &mut [u64],
) -> Result<(), Refusal>
    ensures value { answered result ≡ encode_number n k (length table.now) (length gammas.now) (length out.old) }
    ensures out_after { words out.new ≡ on_done (answered result) (encoded_of n k gammas.now table.now) (words out.old) }
{
    encode_questions(n, k, table.len(), gammas.len(), out.len())?;
    let code = Code { n, k, gammas };
    code.encode_blocks(table, out);
    Ok(())
}

// ---- folds

// The questions of `fold`.
fn fold_questions(
    n: usize,
    k: usize,
    original: usize,
    var: usize,
    coordinates: &[usize],
    src: usize,
    out: usize,
) -> Result<(), Refusal>
    ensures { answered result ≡ fold_number n k original var coordinates.now src out }
{
    if n > 20 {
        return Err(Refusal::Parameters);
    }
    if k > 4 {
        return Err(Refusal::Parameters);
    }
    if original > 20 {
        return Err(Refusal::Parameters);
    }
    if !holds(src, n + k) {
        return Err(Refusal::Length);
    }
    if !holds_half(out, n + k) {
        return Err(Refusal::Length);
    }
    if !are_unfolded(n, original, coordinates) {
        return Err(Refusal::Coordinates);
    }
    if var >= n {
        return Err(Refusal::Variable);
    }
    Ok(())
}

// A codeword in use folded at a variable by r, into a buffer of half its length: a + r × (a + b) for each pair of places that differ in
// bit var. It answers the new n, n - 1, and the list is left without the variable's entry, 0 after its end. It refuses n or an original n past 20 or k
// past 4 with 4, lengths that are not theirs with 5, a list that does not hold exactly n strictly rising numbers below the original n with 36, and a
// variable that is not below n with 6.
pub fn fold(
    n: usize,
    k: usize,
    original: usize,
    var: usize,
    r: Word,
    coordinates: &mut [usize],
    src: &[u64],
    out: &mut [u64],
) -> Result<usize, Refusal>
    ensures value { folded result ≡ folded_of n (fold_number n k original var coordinates.old (length src.now) (length out.old)) }
    ensures coordinates_after { coordinates.new ≡ on_done (answered result) (dropped_of var coordinates.old) coordinates.old }
    ensures out_after { words out.new ≡ on_done (answered result) (fold_list var (word r) (words src.now)) (words out.old) }
{
    // Room for the products by r, made before the questions are put: docs/DECISIONS.md, 54.
    let mut multiples = [0u64; 8192];
    fold_questions(n, k, original, var, coordinates, src.len(), out.len())?;
    fold_within(var, r, src, out, &mut multiples);
    drop_coordinate(var, coordinates);
    Ok(n - 1)
}
