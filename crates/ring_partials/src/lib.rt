// Partial evaluations and their fold, after ring.rs (SPECIFICATION 3.1 and 3.2): a `Vec` becomes a lent slice, a panic a refusal. What ties them to the
// words' bits and to the indicator's table is stated in these contracts' terms in ring_identities (specs/Identities).
#![tactic(auto)]

ghost use Rattle.std.specs.Prelude.{◌≡◌, length, IfOk};
ghost use Rattle.theory_laws.specs.Table.{at};
ghost use Rattle.theory_laws.specs.Questions.{on_done};
ghost use Rattle.theory_laws.specs.Refusals.{answered};
ghost use Rattle.theory_field.specs.Words.{words};
ghost use Rattle.field_gf128.specs.Word.{word};
ghost use Rattle.theory_multilinear.specs.Partials.{fold_partials};
ghost use Rattle.field_pack.specs.Phi.{coefficients};
ghost use Rattle.ring_partials.specs.Numbers.{partial_number, fold_number};
ghost use Rattle.ring_partials.specs.Answers.{partials_of};

use field_gf128::Word;
use field_words::table_len;
use theory_laws::Refusal;

pub mod sums;

// The questions for n and lent lengths in u64.
#[tactic(auto, using(theory_laws::proofs::Questions::asks), unfolding(crate::specs::Numbers::partial_number))]
fn questions(n: usize, packed: usize, eq: usize, out: usize) -> Result<(), Refusal>
    ensures { answered result ≡ partial_number n packed eq out }
{
    if 20 < n {
        return Err(Refusal::Parameters);
    }
    let len = table_len(n);
    if packed != len {
        return Err(Refusal::Length);
    }
    if eq != len {
        return Err(Refusal::Length);
    }
    if out != 256 {
        return Err(Refusal::Length);
    }
    Ok(())
}

// The partial evaluations s_0 .. s_127 over 2^n packed words and a table of 2^n entries: s_b is the sum of the entries of the
// words whose bit b is set. Refuses with 4 where n is above 20, with 5 where a lent length is another; `out` then stays.
pub fn partial_evals(n: usize, packed: &[u64], eq: &[u64], out: &mut [u64]) -> Result<(), Refusal>
    ensures value { answered result ≡ partial_number n (length packed.now) (length eq.now) (length out.old) }
    ensures out_after { words out.new ≡ on_done (answered result) (partials_of n packed.now eq.now) (words out.old) }
{
    questions(n, packed.len(), eq.len(), out.len())?;
    sums::partials(packed, eq, out);
    Ok(())
}

// The fold of 128 partial evaluations: the sum over i of rb[i] times the word whose bit j is bit i of s_j. Refuses with 5 where
// not 128 words are lent.
pub fn fold_partials(s: &[u64], rb: [Word; 128]) -> Result<Word, Refusal>
    ensures number_value { answered result ≡ fold_number (length s.now) }
    ensures word_value { IfOk result (λ w. word w ≡ fold_partials (at (words s.now)) (coefficients rb)) }
{
    if s.len() != 256 {
        return Err(Refusal::Length);
    }
    Ok(sums::fold(s, rb))
}
