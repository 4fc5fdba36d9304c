// The indicator of ring switching, after `RingEqInd` of ring.rs (SPECIFICATION 3.3 and 3.4): its table, and its value at a point. What ties the table to
// the partials is stated in ring_identities (specs/Identities).
#![tactic(auto)]

ghost use Rattle.std.specs.Prelude.{◌≡◌, ℕ, ◌*◌, ◌/◌, ◌%◌, ◌^◌, [], length, IfOk};
ghost use Rattle.theory_laws.specs.Table.{tab, at};
ghost use Rattle.theory_laws.specs.Questions.{on_done};
ghost use Rattle.theory_laws.specs.Refusals.{answered};
ghost use Rattle.theory_field.specs.Field.{◌⊗◌};
ghost use Rattle.theory_field.specs.Words.{words};
ghost use Rattle.field_gf128.specs.Word.{word};
ghost use Rattle.theory_multilinear.specs.Equality.{eq_table};
ghost use Rattle.theory_multilinear.specs.Partials.{materialize};
ghost use Rattle.theory_multilinear.proofs.Tensor.{tensor_step};
ghost use Rattle.field_equality.specs.Eq.{eq_number};
ghost use Rattle.field_pack.specs.Phi.{coefficients};
ghost use Rattle.ring_indicator.specs.Numbers.{eval_number};
ghost use Rattle.ring_indicator.specs.Answers.{indicator_of};
ghost use Rattle.ring_indicator.specs.helpers.Steps.{phi_of_each, join_parts};

use field_gf128::Word;
use ring_partials::sums;
use theory_laws::Refusal;

// Each word in place becomes what f makes of it.
fn each_word<F: Fn(Word) -> Word>(out: &mut [u64], f: F)
    requires whole_words { length out.old % 2 ≡ 0 }
    requires callable { F.IsAlwaysCallable f }
    ensures { (g : ℕ → ℕ) → ((w : _) (r : _) → F.post f w r → word r ≡ g (word w))
        → words out.new ≡ tab (length out.old / 2) (λ v. g (at (words out.old) v)) }
{
    for v in 0..out.len() / 2 {
        field_words::put(out, v, f(field_words::get(out, v)));
    }
}

// The number of words from which on it is quicker to fill tables for them than to take them one by one (docs/DECISIONS.md, 77).
const MANY: usize = 32;

// phi of each word in place, under the row coefficients rb: tables are filled only for many.
#[inline(never)]
fn phi_all(rb: &[Word; 128], out: &mut [u64])
    requires { length out.old % 2 ≡ 0 }
    ensures { words out.new ≡ phi_of_each (coefficients rb.now) (length out.old / 2) (words out.old) }
{
    if out.len() / 2 < MANY {
        each_word(out, |w| field_pack::phi_c(w, *rb));
    } else {
        let t = field_pack::phi_tab(*rb);
        each_word(out, |w| field_pack::phi_tab_apply(&t, w));
    }
}

// The equality table of z. It and `phi_all` stand in frames of their own, one after the other, so that the room for multiples in the one and the copies
// of coefficients in the other are not on the stack together.
#[inline(never)]
fn entries(n: usize, z: &[u64], out: &mut [u64]) -> Result<(), Refusal>
    ensures value { answered result ≡ eq_number n (length z.now) (length out.old) }
    ensures out_after { words out.new ≡ on_done (answered result) (eq_table (words z.now)) (words out.old) }
{
    field_equality::eq_table(n, z, out)
}

// The indicator's table for the equality point z of n coordinates under the row coefficients rb: phi of each of the 2^n entries of
// z's equality table. It is refused where that table is: with 4 where n is above 20, with 5 where a lent length is another; `out`
// then stays.
pub fn materialize(n: usize, z: &[u64], rb: [Word; 128], out: &mut [u64]) -> Result<(), Refusal>
    ensures value { answered result ≡ eq_number n (length z.now) (length out.old) }
    ensures out_after { words out.new ≡ on_done (answered result) (materialize (coefficients rb) (words z.now)) (words out.old) }
{
    entries(n, z, out)?;
    phi_all(&rb, out);
    Ok(())
}

// The products of q and each power of x, x^j at place j.
fn powers(out: &mut [u64; 256], q: Word)
    ensures { words out.new ≡ tab 128 (λ j. 2 ^ j ⊗ word q) }
{
    let mut p = q;
    for j in 0..128 {
        field_words::put(out, j, p);
        p = field_gf128::double(p);
    }
}

// The vertical part of a step, t_k + t_k × z, plus the horizontal part, word k of `mixed`.
fn join_parts(t: &mut [u64; 256], z: Word, mixed: &[u64; 256])
    ensures { words t.new ≡ tab 128 (λ k. join_parts (word z) (at (words mixed.now)) k (at (words t.old) k)) }
{
    for k in 0..128 {
        let e = field_words::get(t, k);
        let vertical = field_gf128::add(e, field_gf128::mul(e, z));
        field_words::put(t, k, field_gf128::add(vertical, field_words::get(mixed, k)));
    }
}

// The step of the tensor t at coordinate z of the equality point and q of the point: t_k + t_k × z, plus the t_j for which
// x^j × q has bit k.
fn tensor_step(t: &mut [u64; 256], z: Word, q: Word)
    ensures { words t.new ≡ tab 128 (tensor_step (word z) (word q) (at (words t.old))) }
{
    let mut rows = [0u64; 256];
    powers(&mut rows, q);
    let mut mixed = [0u64; 256];
    sums::partials(&rows, t, &mut mixed);
    join_parts(t, z, &mixed);
}

// The indicator at the point, by one step for each of its n coordinates: no table of 2^n entries is filled.
fn tensor_eval(n: usize, z: &[u64], rb: [Word; 128], point: &[u64]) -> Word
    requires { (length z.now ≡ 2 * n) × (length point.now ≡ 2 * n) }
    ensures { word result ≡ indicator_of rb z.now point.now }
{
    let mut t = [0u64; 256];
    t[0] = 1;
    for i in 0..n {
        tensor_step(&mut t, field_words::get(z, i), field_words::get(point, i));
    }
    sums::fold(&t, rb)
}

// The indicator where there are no coordinates: phi of one word, the equality table's only entry.
fn empty_eval(rb: [Word; 128]) -> Word
    ensures { word result ≡ indicator_of rb [] [] }
{
    field_pack::phi_c(Word { lo: 1, hi: 0 }, rb)
}

// The questions for n and lent lengths in u64.
#[tactic(auto, using(theory_laws::proofs::Questions::asks), unfolding(crate::specs::Numbers::eval_number))]
fn eval_questions(n: usize, z: usize, point: usize) -> Result<(), Refusal>
    ensures { answered result ≡ eval_number n z point }
{
    if 20 < n {
        return Err(Refusal::Parameters);
    }
    if z != 2 * n {
        return Err(Refusal::Length);
    }
    if point != 2 * n {
        return Err(Refusal::Length);
    }
    Ok(())
}

// The indicator of the equality point z under the row coefficients rb, at a point: both have n coordinates. Refuses with 4 where
// n is above 20, with 5 where a lent length is another.
pub fn eval_at(n: usize, z: &[u64], rb: [Word; 128], point: &[u64]) -> Result<Word, Refusal>
    ensures number_value { answered result ≡ eval_number n (length z.now) (length point.now) }
    ensures word_value { IfOk result (λ w. word w ≡ indicator_of rb z.now point.now) }
{
    eval_questions(n, z.len(), point.len())?;
    if n == 0 {
        return Ok(empty_eval(rb));
    }
    Ok(tensor_eval(n, z, rb, point))
}
