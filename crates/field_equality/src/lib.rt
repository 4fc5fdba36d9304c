// Equality tables, after eq.rs: the doubling of `eq_build_fused_into` in one lent buffer.
#![tactic(auto)]

ghost use Rattle.std.specs.Prelude.{◌≡◌, ◌*◌, ◌^◌, length};
ghost use Rattle.theory_laws.specs.Questions.{on_done};
ghost use Rattle.theory_laws.specs.Refusals.{answered};
ghost use Rattle.theory_field.specs.Words.{words};
ghost use Rattle.theory_multilinear.specs.Equality.{eq_table};
ghost use Rattle.field_equality.specs.Eq.{eq_number};
ghost use Rattle.field_equality.specs.helpers.Sizes.{Sizes};

use field_gf128::Word;
use field_words::table_len;
use theory_laws::Refusal;

// The questions for n coordinates and lent lengths.
#[tactic(auto, using(theory_laws::proofs::Questions::asks), unfolding(crate::specs::Eq::eq_number))]
fn questions(n: usize, point: usize, out: usize) -> Result<(), Refusal>
    ensures { answered result ≡ eq_number n point out }
{
    if n > 20 {
        return Err(Refusal::Parameters);
    }
    if point != 2 * n {
        return Err(Refusal::Length);
    }
    if out != table_len(n) {
        return Err(Refusal::Length);
    }
    Ok(())
}

// The table of a point, a coordinate at a time, with room for the multiples of a coordinate.
fn eq_build(n: usize, point: &[u64], out: &mut [u64], multiples: &mut [u64])
    requires { Sizes n (length point.now) (length out.old) × (length multiples.old ≡ 8192) }
    ensures { words out.new ≡ eq_table (words point.now) }
{
    field_words::put(out, 0, Word { lo: 1, hi: 0 });
    let mut len: usize = 1;
    for i in 0..n {
        let z = field_words::get(point, i);
        field_runs::eq_double(out, len, z, multiples);
        len = len + len;
    }
}

// The equality table of a point of n coordinates: entry v is the product over j of coordinate j where bit j of v is 1, else 1 plus
// it; of the empty point, the single entry 1. Refuses with 4 where n is above 20, with 5 where `point` is not n words long or `out`
// not 2^n; `out` then stays.
pub fn eq_table(n: usize, point: &[u64], out: &mut [u64]) -> Result<(), Refusal>
    ensures value { answered result ≡ eq_number n (length point.now) (length out.old) }
    ensures out_after { words out.new ≡ on_done (answered result) (eq_table (words point.now)) (words out.old) }
{
    questions(n, point.len(), out.len())?;
    let mut multiples = [0u64; 8192];
    field_runs::align(&mut multiples, out);
    eq_build(n, point, out, &mut multiples);
    Ok(())
}
