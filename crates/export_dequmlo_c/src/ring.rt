// Ring switching: partial evaluations, their fold, and the indicator.
ghost use Rattle.std.specs.Prelude.{◌≡◌, length};
ghost use Rattle.theory_laws.specs.Table.{at};
ghost use Rattle.theory_laws.specs.Questions.{on_done};
ghost use Rattle.theory_field.specs.Words.{words};
ghost use Rattle.field_gf128.specs.Word.{word};
ghost use Rattle.theory_multilinear.specs.Partials.{fold_partials, materialize};
ghost use Rattle.field_pack.specs.Phi.{coefficients};
ghost use Rattle.field_equality.specs.Eq.{eq_number};
ghost use Rattle.ring_partials.specs.Numbers.{partial_number, fold_number};
ghost use Rattle.ring_partials.specs.Answers.{partials_of};
ghost use Rattle.ring_indicator.specs.Numbers.{eval_number};
ghost use Rattle.ring_indicator.specs.Answers.{indicator_of};

use export_dequmlo::ring::{Answered, Coefficients};

// The partial evaluations s_0 .. s_127 over 2^n words and a table of 2^n entries: 4, 5.
#[unsafe(no_mangle)]
pub extern "C" fn dequmlo_partial_evals(
    n: usize,
    packed: &[u64],
    eq: &[u64],
    out: &mut [u64],
) -> u32
    ensures value { result ≡ partial_number n (length packed.now) (length eq.now) (length out.old) }
    ensures out_after { words out.new ≡ on_done result (partials_of n packed.now eq.now) (words out.old) }
{
    export_dequmlo::ring::dequmlo_partial_evals(n, packed, eq, out)
}

// The fold of 128 partial evaluations under the row coefficients: 5.
#[unsafe(no_mangle)]
pub extern "C" fn dequmlo_fold_partials(s: &[u64], rb: Coefficients) -> Answered
    ensures number_value { result.number ≡ fold_number (length s.now) }
    ensures word_value { word result.word ≡ on_done result.number (fold_partials (at (words s.now)) (coefficients rb.words)) 0 }
{
    export_dequmlo::ring::dequmlo_fold_partials(s, rb)
}

// The indicator's table of 2^n entries: 4, 5.
#[unsafe(no_mangle)]
pub extern "C" fn dequmlo_materialize(n: usize, z: &[u64], rb: Coefficients, out: &mut [u64]) -> u32
    ensures value { result ≡ eq_number n (length z.now) (length out.old) }
    ensures out_after { words out.new ≡ on_done result (materialize (coefficients rb.words) (words z.now)) (words out.old) }
{
    export_dequmlo::ring::dequmlo_materialize(n, z, rb, out)
}

// The indicator at a point: 4, 5.
#[unsafe(no_mangle)]
pub extern "C" fn dequmlo_eval_at(n: usize, z: &[u64], rb: Coefficients, point: &[u64]) -> Answered
    ensures number_value { result.number ≡ eval_number n (length z.now) (length point.now) }
    ensures word_value { word result.word ≡ on_done result.number (indicator_of rb.words z.now point.now) 0 }
{
    export_dequmlo::ring::dequmlo_eval_at(n, z, rb, point)
}
