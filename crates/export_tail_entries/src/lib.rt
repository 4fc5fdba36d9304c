// The program `tail-list` (SPECIFICATION 11) on its input as a slice, and the lines that it prints.
#![tactic(auto)]

ghost use Rattle.std.specs.Prelude.{◌≡◌, ◌+◌, ◌*◌, ◌-◌, ◌^◌, ◌<◌, ◌≤◌, eqb, length, take};
ghost use Rattle.theory_laws.specs.Refusals.{answered};
ghost use Rattle.theory_laws.specs.Table.{tab, at};
ghost use Rattle.theory_field.specs.Words.{words};
ghost use Rattle.field_gf128.specs.Word.{word};
ghost use Rattle.theory_multilinear.specs.Fold.{fold_list};
ghost use Rattle.export_tail_entries.specs.Tail.{zeros, challenges_at, input_size, size_number, tail_number};
ghost use Rattle.export_tail_entries.specs.Tail.{codeword_of, input_level, answer, tails_of};
ghost use Rattle.export_tail_entries.specs.helpers.Room.{Whole, Buffers};

pub mod level;

use crate::level::LastLevel;
use code_codeword::folding::fold_into;
use code_codeword::sizes::power;
use field_gf128::Word;
use theory_laws::Refusal;

// Where the challenges begin.
fn challenges_at(n: usize, k: usize) -> usize
    requires { n + k ≤ 8 }
    ensures { result ≡ challenges_at n k }
{
    2 + 16 * power(n) + 16 * (k * n)
}

// Whether an input has the length that n and k fix.
fn is_whole(len: usize, n: usize, k: usize) -> bool
    requires { n + k ≤ 8 }
    ensures { result ≡ eqb len (input_size n k) }
{
    len == challenges_at(n, k) + 16 * n
}

// The questions for n, k and the input's length.
fn size_questions(n: usize, k: usize, len: usize) -> Result<(), Refusal>
    ensures { answered result ≡ size_number n k len }
{
    if n > 20 {
        return Err(Refusal::Parameters);
    }
    if k > 4 {
        return Err(Refusal::Parameters);
    }
    if n + k > 8 {
        return Err(Refusal::Parameters);
    }
    if !is_whole(len, n, k) {
        return Err(Refusal::Length);
    }
    Ok(())
}

// The questions that `tails` puts.
fn questions(input: &[u8]) -> Result<(), Refusal>
    ensures { answered result ≡ tail_number input.now }
{
    if input.len() < 2 {
        return Err(Refusal::Length);
    }
    size_questions(usize::from(input[0]), usize::from(input[1]), input.len())
}

// The codeword, of the table and the gammas that are read on the way.
fn encode_input(
    n: usize,
    k: usize,
    input: &[u8],
    table: &mut [u64],
    gammas: &mut [u64],
    out: &mut [u64],
)
    requires { Whole n k (length input.now) × Buffers n k (length table.old) (length gammas.old) (length out.old) }
    ensures { words out.new ≡ codeword_of n k input.now }
{
    let rows = power(n);
    field_bytes::words_at(input, 2, rows, table);
    field_bytes::words_at(input, 2 + 16 * rows, k * n, gammas);
    // What is required leaves it nothing to refuse.
    let _ = code_codeword::encode(n, k, table, gammas, out);
}

// Room for 256 words, all zero.
fn blank() -> [u64; 512]
    ensures { result ≡ zeros 512 }
{
    [0; 512]
}

// The codeword, zeros after it.
fn codeword(n: usize, k: usize, input: &[u8]) -> [u64; 512]
    requires { Whole n k (length input.now) }
    ensures { words result ≡ tab 256 (at (codeword_of n k input.now)) }
{
    let mut table = blank();
    let mut gammas = blank();
    let mut out = blank();
    let t = 2 * power(n);
    let g = 2 * (k * n);
    let o = 2 * power(n + k);
    encode_input(
        n,
        k,
        input,
        &mut table[..t],
        &mut gammas[..g],
        &mut out[..o],
    );
    out
}

// A level of 2^(m + k) words folded at variable 0, zeros after it.
fn folded(m: usize, k: usize, r: Word, level: [u64; 512]) -> [u64; 512]
    requires { (0 < m) × (k ≤ 4) × (m + k ≤ 8) }
    ensures { words result ≡ tab 256 (at (fold_list 0 (word r) (take (2 ^ (m + k)) (words level)))) }
{
    let mut out = blank();
    let half = power(m + k);
    let whole = 2 * half;
    fold_into(0, r, &level[..whole], &mut out[..half]);
    out
}

// The first 16 words.
fn first(level: [u64; 512]) -> [u64; 32]
    ensures { result ≡ take 32 level }
{
    let mut out = [0u64; 32];
    out.copy_from_slice(&level[..32]);
    out
}

// The last level, zeros after it: fold after fold at variable 0, by the challenges.
fn last_level(n: usize, k: usize, input: &[u8]) -> [u64; 32]
    requires { Whole n k (length input.now) }
    ensures { words result ≡ tab 16 (at (input_level n k input.now n)) }
{
    let mut current = codeword(n, k, input);
    let from = challenges_at(n, k);
    for l in 0..n {
        let r = field_bytes::word_at(input, from + 16 * l);
        let next = folded(n - l, k, r, current);
        current = next;
    }
    first(current)
}

// What `tail-list` finds in its input. It refuses 0 or 1 byte with 5, sizes past n 20, k 4 or n + k 8 with 4, and a
// length that is not theirs with 5.
pub fn tails(input: &[u8]) -> Result<LastLevel, Refusal>
    ensures { answer result ≡ tails_of input.now }
{
    questions(input)?;
    let n = usize::from(input[0]);
    let k = usize::from(input[1]);
    let entries = last_level(n, k, input);
    Ok(LastLevel { n, k, entries })
}
