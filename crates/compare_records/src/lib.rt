// Comparing two query records. The entry is `compare`; the other functions put its questions.
#![tactic(auto)]

ghost use Rattle.std.specs.Prelude.{◌≡◌};
ghost use Rattle.theory_laws.specs.Refusals.{answered};
ghost use Rattle.theory_compare.specs.Compare.{accepts, compared, first_message, second_message};
ghost use Rattle.tree_place.specs.Place.{index};
ghost use Rattle.compare_records.specs.Answers.{comparison};
ghost use Rattle.compare_records.specs.helpers.Numbers.{lent_number, records_lent};
ghost use Rattle.theory_record.specs.Lent.{fixed_by};

use bytes_numbers::same_bytes;
use code_level::{level_length, size_questions};
use compare_levels::pick_levels;
use record_query_check::check_query;
use theory_laws::Refusal;
use theory_record::Deposit;
use tree_place::Place;

// How many bytes a buffer for a message has, under either set of widths: `message_buffer` of the definitions. The longest, a leaf message of
// 32 values, has 818.
pub const MESSAGE_BUFFER: usize = 1024;

// The lengths of the two messages.
#[derive(Clone, Copy, Debug, PartialEq, Eq)]
pub struct Messages {
    pub first: usize,
    pub second: usize,
}

// 4, 5, 7 and 11; what is lent, the position excepted, comes in by its length.
fn lent_questions(
    base: usize,
    n: usize,
    k: usize,
    position: Place,
    challenges: usize,
    roots: usize,
    first: usize,
    second: usize,
) -> Result<(), Refusal>
    ensures { answered result ≡ lent_number base n k (index position) challenges roots first second }
{
    size_questions(n, k)?;
    if challenges != 2 * n {
        return Err(Refusal::Length);
    }
    if roots != 32 * (n + 1) {
        return Err(Refusal::Length);
    }
    if first != MESSAGE_BUFFER {
        return Err(Refusal::Length);
    }
    if second != MESSAGE_BUFFER {
        return Err(Refusal::Length);
    }
    if base > 200 {
        return Err(Refusal::Domain);
    }
    if position.index() >= level_length(n, k, 0) {
        return Err(Refusal::Place);
    }
    Ok(())
}

// Is a record accepted?
fn accepted<'a>(
    deposit: Deposit<'a>,
    position: Place,
    challenges: &[u64],
    roots: &[u8],
    s: &[u8],
) -> bool
    ensures { result ≡ accepts (fixed_by deposit.entry) (index position) challenges.now roots.now s.now }
{
    check_query(deposit, position, challenges, roots, s).is_ok()
}

// 32 and 33.
fn records_questions<'a>(
    deposit: Deposit<'a>,
    position: Place,
    challenges: &[u64],
    roots: &[u8],
    s: &[u8],
    t: &[u8],
) -> Result<(), Refusal>
    ensures { answered result ≡ records_lent deposit.entry (index position) challenges roots s t }
{
    if !accepted(deposit, position, challenges, roots, s) {
        return Err(Refusal::NotAccepted);
    }
    if !accepted(deposit, position, challenges, roots, t) {
        return Err(Refusal::NotAccepted);
    }
    if same_bytes(s, t) {
        return Err(Refusal::SameRecords);
    }
    Ok(())
}

// Compare two query records for one position, lent what the check is lent: 4, 5, 7, 11, 32, 33. Where they differ, the two messages
// nearest the root that differ go into the buffers, of MESSAGE_BUFFER bytes each.
pub fn compare<'a>(
    deposit: Deposit<'a>,
    position: Place,
    challenges: &[u64],
    roots: &[u8],
    first: &[u8],
    second: &[u8],
    one: &mut [u8],
    two: &mut [u8],
) -> Result<Messages, Refusal>
    ensures result_value { comparison result
        ≡ compared (fixed_by deposit.entry) (index position) challenges.now roots.now first.now second.now one.old two.old }
    ensures one_after { one.new ≡ first_message (fixed_by deposit.entry) (index position) challenges.now roots.now first.now second.now one.old two.old }
    ensures two_after { two.new ≡ second_message (fixed_by deposit.entry) (index position) challenges.now roots.now first.now second.now one.old two.old }
{
    lent_questions(
        deposit.base.len(),
        deposit.n,
        deposit.k,
        position,
        challenges.len(),
        roots.len(),
        one.len(),
        two.len(),
    )?;
    records_questions(deposit, position, challenges, roots, first, second)?;
    let m = pick_levels(deposit, position, first, second, one, two).unwrap_or(0);
    Ok(Messages {
        first: m,
        second: m,
    })
}
