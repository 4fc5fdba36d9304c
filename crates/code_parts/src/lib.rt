// The code's work in parts, for callers that divide it: a block of the codeword, half a block, and a part of a fold, each into a lent buffer of
// its own. A refused call changes no lent byte. The entries are `codeword_block`, `codeword_half` and `fold_part`; the functions that do their
// work require.
#![tactic(auto)]

ghost use Rattle.std.specs.Prelude.{◌≡◌, ◌+◌, ◌-◌, ◌*◌, ◌/◌, ◌^◌, ◌≤◌, ◌<◌, leb, ltb, length};
ghost use Rattle.theory_laws.specs.Refusals.{answered};
ghost use Rattle.theory_laws.specs.Lists.{part};
ghost use Rattle.theory_field.specs.Words.{words};
ghost use Rattle.field_gf128.specs.Word.{word};
ghost use Rattle.theory_code.specs.PartQuestions.{block_number, half_number, fold_part_number};
ghost use Rattle.code_parts.specs.Parts.{part_of_codeword, block_into, half_into, part_of_fold, fold_part_into};
ghost use Rattle.field_multiples.specs.helpers.Multiples.{Room};
ghost use Rattle.code_parts.specs.helpers.FoldPart.{PartFits};
ghost use Rattle.code_parts.specs.helpers.Half.{number_within, HalfSizes};

use code_codeword::Code;
use code_codeword::sizes::{holds, power};
use field_gf128::Word;
use field_multiples::{Kernel, Table};
use field_words::copy;
use theory_laws::Refusal;
use tree_place::ends_within;

// ---- a block of the codeword

// Is eps the number of a block?
fn is_block(k: usize, eps: usize) -> bool
    requires { k ≤ 4 }
    ensures { result ≡ ltb eps (2 ^ k) }
{
    eps < power(k)
}

// The questions of an entry that makes 2^m words of block eps.
fn questions_within(
    m: usize,
    n: usize,
    k: usize,
    eps: usize,
    table: usize,
    gammas: usize,
    out: usize,
) -> Result<(), Refusal>
    requires { m ≤ n }
    ensures { answered result ≡ number_within m n k eps table gammas out }
{
    if n > 20 {
        return Err(Refusal::Parameters);
    }
    if k > 4 {
        return Err(Refusal::Parameters);
    }
    if !holds(table, n) {
        return Err(Refusal::Length);
    }
    if gammas != 2 * (k * n) {
        return Err(Refusal::Length);
    }
    if !holds(out, m) {
        return Err(Refusal::Length);
    }
    if !is_block(k, eps) {
        return Err(Refusal::Place);
    }
    Ok(())
}

// Block eps of the codeword of a table of 2^n words: entries eps × 2^n to eps × 2^n + 2^n − 1 of what `encode` makes. It refuses n past 20 or
// k past 4 with 4, lengths that are not theirs with 5, and a block that is not below 2^k with 11.
pub fn codeword_block(
    n: usize,
    k: usize,
    eps: usize,
    table: &[u64],
    gammas: &[u64],
    out: &mut [u64],
) -> Result<(), Refusal>
    ensures value { answered result ≡ block_number n k eps (length table.now) (length gammas.now) (length out.old) }
    ensures out_after { words out.new ≡ block_into (answered result) n k gammas.now eps table.now out.old }
{
    // Room for the products of the block's passes, made before the questions are put: docs/DECISIONS.md, 54.
    let mut multiples = [0u64; 8192];
    questions_within(n, n, k, eps, table.len(), gammas.len(), out.len())?;
    field_runs::align(&mut multiples, table);
    let code = Code { n, k, gammas };
    code.encode_block(eps, table, out, &mut multiples);
    Ok(())
}

// ---- half a block

// The questions of `codeword_half`.
fn half_questions(
    n: usize,
    k: usize,
    half: usize,
    table: usize,
    gammas: usize,
    out: usize,
) -> Result<(), Refusal>
    ensures { answered result ≡ half_number n k half table gammas out }
{
    if n < 1 {
        return Err(Refusal::Parameters);
    }
    questions_within(n - 1, n, k, half / 2, table, gammas, out)
}

// Half 0 or 1 of a table.
fn copy_half(half: usize, table: &[u64], out: &mut [u64])
    requires { (half < 2) × (length table.now ≡ 2 * length out.old) }
    ensures { out.new ≡ part (length out.old) (half * length out.old) table.now }
{
    let size = out.len();
    let from = half * size;
    let to = from + size;
    copy(&table[from..to], out);
}

// A half of any block: the table folded at its last variable, by the bit that says which half it is plus L(eps) there, and then shifted by the
// coordinates that are left.
fn shift_half(code: &Code, half: usize, table: &[u64], out: &mut [u64], multiples: &mut [u64])
    requires { HalfSizes code.now.n code.now.k half (length table.now) (length out.old) × Room multiples.old }
    ensures { words out.new ≡ part_of_codeword (code.now.n - 1) code.now.n code.now.k code.now.gammas.now half table.now }
{
    let eps = half / 2;
    let last = code.n - 1;
    let bit = Word {
        lo: (half % 2) as u64,
        hi: 0,
    };
    let r = field_gf128::add(bit, code.coordinate(eps, last));
    field_runs::fold(out, table, last as u64, r, multiples);
    code.shift_table(0, last, eps, out, multiples);
}

// Half a block, once the questions are answered: those of block 0 are the table's.
fn encode_half(code: &Code, half: usize, table: &[u64], out: &mut [u64], multiples: &mut [u64])
    requires { HalfSizes code.now.n code.now.k half (length table.now) (length out.old) × Room multiples.old }
    ensures { words out.new ≡ part_of_codeword (code.now.n - 1) code.now.n code.now.k code.now.gammas.now half table.now }
{
    if half < 2 {
        copy_half(half, table, out);
    } else {
        shift_half(code, half, table, out, multiples);
    }
}

// Half a block of the codeword of a table of 2^n words: entries half × 2^(n - 1) to half × 2^(n - 1) + 2^(n - 1) − 1 of what `encode` makes, so
// that block eps has the halves 2 × eps and 2 × eps + 1. It refuses n that is not from 1 to 20 or k past 4 with 4, lengths that are not theirs
// with 5, and a half that is not below 2^(k + 1) with 11.
pub fn codeword_half(
    n: usize,
    k: usize,
    half: usize,
    table: &[u64],
    gammas: &[u64],
    out: &mut [u64],
) -> Result<(), Refusal>
    ensures value { answered result ≡ half_number n k half (length table.now) (length gammas.now) (length out.old) }
    ensures out_after { words out.new ≡ half_into (answered result) n k gammas.now half table.now out.old }
{
    // Made before the questions are put: docs/DECISIONS.md, 54.
    let mut multiples = [0u64; 8192];
    half_questions(n, k, half, table.len(), gammas.len(), out.len())?;
    field_runs::align(&mut multiples, table);
    let code = Code { n, k, gammas };
    encode_half(&code, half, table, out, &mut multiples);
    Ok(())
}

// ---- a part of a fold

// Are m entries from entry `first` on all entries of the fold of 2^e words?
fn is_part(first: usize, m: usize, e: usize) -> bool
    requires { e ≤ 24 }
    ensures { result ≡ leb (first + m) (2 ^ e / 2) }
{
    ends_within(first, m, power(e) / 2)
}

// The questions of `fold_part`.
fn fold_part_questions(
    n: usize,
    k: usize,
    var: usize,
    first: usize,
    src: usize,
    out: usize,
) -> Result<(), Refusal>
    ensures { answered result ≡ fold_part_number n k var first src out }
{
    if n > 20 {
        return Err(Refusal::Parameters);
    }
    if k > 4 {
        return Err(Refusal::Parameters);
    }
    if !holds(src, n + k) {
        return Err(Refusal::Length);
    }
    if out % 2 != 0 {
        return Err(Refusal::Length);
    }
    if var >= n {
        return Err(Refusal::Variable);
    }
    if !is_part(first, out / 2, n + k) {
        return Err(Refusal::Place);
    }
    Ok(())
}

// a + r × (a + b) for the pairs from pair `first` on, by the table of r's multiples.
fn fold_entries<const BITS: u64>(
    var: usize,
    first: usize,
    src: &[u64],
    out: &mut [u64],
    by: Table<'_, BITS>,
)
    requires { PartFits var first (length src.now) (length out.old) }
    ensures { words out.new ≡ part_of_fold (length out.old / 2) first var (word by.entry.factor) src.now }
{
    let half: usize = 1 << var;
    let m = out.len() / 2;
    for v in 0..m {
        let lo = field_runs::first(first + v, half);
        let a = field_words::get(src, lo);
        let b = field_words::get(src, lo + half);
        let p = field_runs::line_at(by, a, b);
        field_words::put(out, v, p);
    }
}

// The part, once the questions are answered, with room for a table of r's multiples.
fn put_fold_part(var: usize, r: Word, first: usize, src: &[u64], out: &mut [u64], t: &mut [u64])
    requires { PartFits var first (length src.now) (length out.old) × Room t.old }
    ensures { words out.new ≡ part_of_fold (length out.old / 2) first var (word r) src.now }
{
    field_runs::align(t, src);
    match field_multiples::prepare(t, out.len() / 2, r) {
        Kernel::Nibbles => fold_entries::<4>(var, first, src, out, Table::of(t, r)),
        Kernel::Bytes => fold_entries::<8>(var, first, src, out, Table::of(t, r)),
    }
}

// Entries of the codeword folded at a variable by r, from entry `first` on, as many as the buffer has room for: those of what `fold` makes. It
// refuses n past 20 or k past 4 with 4, lengths that are not theirs with 5, a variable that is not below n with 6, and entries that are
// not all the fold's with 11.
pub fn fold_part(
    n: usize,
    k: usize,
    var: usize,
    r: Word,
    first: usize,
    src: &[u64],
    out: &mut [u64],
) -> Result<(), Refusal>
    ensures value { answered result ≡ fold_part_number n k var first (length src.now) (length out.old) }
    ensures out_after { words out.new ≡ fold_part_into (answered result) first var (word r) src.now out.old }
{
    // Made before the questions are put: docs/DECISIONS.md, 54.
    let mut multiples = [0u64; 8192];
    fold_part_questions(n, k, var, first, src.len(), out.len())?;
    put_fold_part(var, r, first, src, out, &mut multiples);
    Ok(())
}
