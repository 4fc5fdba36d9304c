// The two identities of ring switching (SPECIFICATION 3.5), run: each entry answers both sides of one, by the entries that it is about. What ties these
// is stated in specs/Identities, in the terms of their contracts.
#![tactic(auto)]

ghost use Rattle.std.specs.Prelude.{◌≡◌, ◌*◌, ◌/◌, length};
ghost use Rattle.theory_laws.specs.Sum.{sum};
ghost use Rattle.theory_laws.specs.Table.{at};
ghost use Rattle.theory_laws.specs.Questions.{on_done};
ghost use Rattle.theory_laws.specs.Refusals.{answered};
ghost use Rattle.theory_field.specs.Field.{◌⊗◌};
ghost use Rattle.theory_field.specs.Words.{words};
ghost use Rattle.theory_multilinear.specs.Equality.{eq_table};
ghost use Rattle.theory_multilinear.specs.Phi.{phi};
ghost use Rattle.field_gf128.specs.Word.{word};
ghost use Rattle.field_pack.specs.Phi.{numbers, coefficients};
ghost use Rattle.ring_identities.specs.Numbers.{sides_number, sided};
ghost use Rattle.ring_identities.specs.Identities.{row_sum, extension_of_bits, sum_with_table, Evaluated};
ghost use Rattle.ring_identities.specs.Identities.{partials_under_row, folded_partials, indicator_table};
ghost use Rattle.ring_identities.specs.helpers.Sizes.{Sizes};

use field_gf128::Word;
use field_pack::sums::sum_of;
use field_words::table_len;
use theory_laws::Refusal;

// Both sides of an identity: on the left what comes of the partials, on the right what comes of the words and a table.
#[derive(Clone, Copy, Debug, PartialEq, Eq)]
pub struct Sides {
    pub left: Word,
    pub right: Word,
}

// The questions for n and lent lengths in u64.
#[tactic(auto, using(theory_laws::proofs::Questions::asks), unfolding(crate::specs::Numbers::sides_number))]
fn questions(n: usize, packed: usize, point: usize, table: usize) -> Result<(), Refusal>
    ensures { answered result ≡ sides_number n packed point table }
{
    if 20 < n {
        return Err(Refusal::Parameters);
    }
    let len = table_len(n);
    if packed != len {
        return Err(Refusal::Length);
    }
    if point != 2 * n {
        return Err(Refusal::Length);
    }
    if table != len {
        return Err(Refusal::Length);
    }
    Ok(())
}

// The partials of packed words over the equality table of a point, which is left in `table`. Of lengths that are as required neither entry refuses.
fn partials_at(n: usize, packed: &[u64], point: &[u64], table: &mut [u64], s: &mut [u64; 256])
    requires { Sizes n (length packed.now) (length point.now) (length table.old) }
    ensures { Evaluated n packed.now point.now table.new s.new }
{
    field_equality::eq_table(n, point, table).unwrap();
    ring_partials::partial_evals(n, packed, table, s).unwrap();
}

// The sum over b of word b of s times c[b].
fn row_sum(s: &[u64; 256], c: &[Word; 128]) -> Word
    ensures { word result ≡ row_sum (words s.now) (numbers c.now) }
{
    sum_of(128, |b| field_gf128::mul(field_words::get(s, b), c[b]))
}

// The sum over v of word v under row coefficients times entry v, of as many entries as words. These are many words under one set of coefficients, so
// tables of phi are filled for them.
fn sum_of_rows(c: [Word; 128], ws: &[u64], es: &[u64]) -> Word
    requires { length es.now ≡ length ws.now }
    ensures { word result ≡ sum (length ws.now / 2) (λ v. phi (coefficients c) (at (words ws.now) v) ⊗ at (words es.now) v) }
{
    let t = field_pack::phi_tab(c);
    sum_of(ws.len() / 2, |v| {
        let x = field_pack::phi_tab_apply(&t, field_words::get(ws, v));
        field_gf128::mul(x, field_words::get(es, v))
    })
}

// The sum over v of word v times entry v, of as many entries as words.
fn sum_of_products(ws: &[u64], es: &[u64]) -> Word
    requires { length es.now ≡ length ws.now }
    ensures { word result ≡ sum (length ws.now / 2) (λ v. at (words ws.now) v ⊗ at (words es.now) v) }
{
    sum_of(
        ws.len() / 2,
        |v| field_gf128::mul(field_words::get(ws, v), field_words::get(es, v)),
    )
}

// Both sides of the first identity, for 2^n packed words, a point of n coordinates and a row point: the partials summed with the row point's
// coefficients, and the multilinear extension of the words' 128 × 2^n bits, the row coordinates first. They are the same. The point's equality table is
// left in `table`. Refuses with 4 where n is above 20, with 5 where a lent length is another; `table` then stays.
pub fn extension_sides(
    n: usize,
    packed: &[u64],
    point: &[u64],
    row: [Word; 7],
    table: &mut [u64],
) -> Result<Sides, Refusal>
    ensures number_value { answered result ≡ sides_number n (length packed.now) (length point.now) (length table.old) }
    ensures left_value { word (sided result).left ≡ on_done (answered result) (partials_under_row n packed.now point.now row) 0 }
    ensures right_value { word (sided result).right ≡ on_done (answered result) (extension_of_bits packed.now point.now row) 0 }
    ensures same { (sided result).left ≡ (sided result).right }
    ensures table_after { words table.new ≡ on_done (answered result) (eq_table (words point.now)) (words table.old) }
{
    questions(n, packed.len(), point.len(), table.len())?;
    let c = field_pack::eq_coefficients(row);
    let mut s = [0u64; 256];
    partials_at(n, packed, point, table, &mut s);
    Ok(Sides {
        left: row_sum(&s, &c),
        right: sum_of_rows(c, packed, table),
    })
}

// Both sides of the second identity, for 2^n packed words, a point of n coordinates and any row coefficients: the fold of the partials, and the sum over
// v of word v times entry v of the indicator's table. They are the same. The indicator's table is left in `table`. Refuses as the other does.
pub fn fold_sides(
    n: usize,
    packed: &[u64],
    point: &[u64],
    rb: [Word; 128],
    table: &mut [u64],
) -> Result<Sides, Refusal>
    ensures number_value { answered result ≡ sides_number n (length packed.now) (length point.now) (length table.old) }
    ensures left_value { word (sided result).left ≡ on_done (answered result) (folded_partials n packed.now point.now rb) 0 }
    ensures right_value { word (sided result).right ≡ on_done (answered result) (sum_with_table n packed.now (indicator_table point.now rb)) 0 }
    ensures same { (sided result).left ≡ (sided result).right }
    ensures table_after { words table.new ≡ on_done (answered result) (indicator_table point.now rb) (words table.old) }
{
    questions(n, packed.len(), point.len(), table.len())?;
    let mut s = [0u64; 256];
    partials_at(n, packed, point, table, &mut s);
    let left = ring_partials::fold_partials(&s, rb).unwrap();
    ring_indicator::materialize(n, point, rb, table).unwrap();
    Ok(Sides {
        left,
        right: sum_of_products(packed, table),
    })
}
