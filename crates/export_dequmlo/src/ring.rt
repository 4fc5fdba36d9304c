// Ring switching: partial evaluations, their fold, and the indicator.
ghost use Rattle.std.specs.Prelude.{◌≡◌, length, IfOk, OnErr};
ghost use Rattle.theory_laws.specs.Table.{at};
ghost use Rattle.theory_laws.specs.Questions.{on_done};
ghost use Rattle.theory_laws.specs.Refusals.{answered};
ghost use Rattle.theory_field.specs.Words.{words};
ghost use Rattle.field_gf128.specs.Word.{word};
ghost use Rattle.theory_multilinear.specs.Partials.{fold_partials, materialize};
ghost use Rattle.field_pack.specs.Phi.{coefficients};
ghost use Rattle.field_equality.specs.Eq.{eq_number};
ghost use Rattle.ring_partials.specs.Numbers.{partial_number, fold_number};
ghost use Rattle.ring_partials.specs.Answers.{partials_of};
ghost use Rattle.ring_indicator.specs.Numbers.{eval_number};
ghost use Rattle.ring_indicator.specs.Answers.{indicator_of};

use crate::answers::number_of;
use field_gf128::Word;
use theory_laws::Refusal;

// 128 row coefficients by value.
#[repr(C)]
#[derive(Clone, Copy)]
pub struct Coefficients {
    pub words: [Word; 128],
}

// The number, and a word, 0 where it is refused.
#[repr(C)]
#[derive(Clone, Copy)]
pub struct Answered {
    pub number: u32,
    pub word: Word,
}

// The answer with a word.
fn word_answered(answer: Result<Word, Refusal>) -> Answered
    ensures number_value { result.number ≡ answered answer }
    ensures word_value { IfOk answer (λ w. result.word ≡ w) }
    ensures refused { OnErr answer (word result.word ≡ 0) }
{
    match answer {
        Ok(word) => Answered { number: 0, word },
        Err(refusal) => Answered {
            number: refusal.number(),
            word: Word { lo: 0, hi: 0 },
        },
    }
}

// The partial evaluations s_0 .. s_127 over 2^n words and a table of 2^n entries: 4, 5.
pub fn dequmlo_partial_evals(n: usize, packed: &[u64], eq: &[u64], out: &mut [u64]) -> u32
    ensures value { result ≡ partial_number n (length packed.now) (length eq.now) (length out.old) }
    ensures out_after { words out.new ≡ on_done result (partials_of n packed.now eq.now) (words out.old) }
{
    number_of(ring_partials::partial_evals(n, packed, eq, out))
}

// The fold of 128 partial evaluations under the row coefficients: 5.
pub fn dequmlo_fold_partials(s: &[u64], rb: Coefficients) -> Answered
    ensures number_value { result.number ≡ fold_number (length s.now) }
    ensures word_value { word result.word ≡ on_done result.number (fold_partials (at (words s.now)) (coefficients rb.words)) 0 }
{
    word_answered(ring_partials::fold_partials(s, rb.words))
}

// The indicator's table of 2^n entries: 4, 5.
pub fn dequmlo_materialize(n: usize, z: &[u64], rb: Coefficients, out: &mut [u64]) -> u32
    ensures value { result ≡ eq_number n (length z.now) (length out.old) }
    ensures out_after { words out.new ≡ on_done result (materialize (coefficients rb.words) (words z.now)) (words out.old) }
{
    number_of(ring_indicator::materialize(n, z, rb.words, out))
}

// The indicator at a point: 4, 5.
pub fn dequmlo_eval_at(n: usize, z: &[u64], rb: Coefficients, point: &[u64]) -> Answered
    ensures number_value { result.number ≡ eval_number n (length z.now) (length point.now) }
    ensures word_value { word result.word ≡ on_done result.number (indicator_of rb.words z.now point.now) 0 }
{
    word_answered(ring_indicator::eval_at(n, z, rb.words, point))
}
