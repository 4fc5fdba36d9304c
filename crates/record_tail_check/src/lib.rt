// Checking a tail record. The entry is `check_tail`; the other functions require.
#![tactic(auto)]

ghost use Rattle.std.specs.Prelude.{◌≡◌, ◌<◌};
ghost use Rattle.field_gf128.specs.Word.{word};
ghost use Rattle.theory_record.specs.Format.{tail_form, record_items};
ghost use Rattle.theory_record.specs.Tail.{first_value, check_tail};
ghost use Rattle.record_tail_check.specs.helpers.Numbers.{head_number, groups_number, Allowed};
ghost use Rattle.theory_laws.specs.Refusals.{answered};
ghost use Rattle.theory_record.specs.Lent.{fixed_by};

use bytes_numbers::load;
use code_level::{level_groups, level_width, size_questions};
use field_gf128::Word;
use record_known::groups::known_groups;
use record_opening::opening_known;
use record_reader::{count_at, group_at, tail_whole, word_at};
use theory_laws::Refusal;
use theory_record::Deposit;
use tree_place::Group;

// The first value of the first group; 0 where that group has none.
fn first_value(s: &[u8], groups: usize) -> Word
    requires { 0 < groups }
    ensures { word result ≡ first_value (record_items tail_form groups s.now) }
{
    if count_at(s, 4) == 0 {
        return Word { lo: 0, hi: 0 };
    }
    word_at(s, 8)
}

// 28 to 30, group by group, and 31.
fn groups_questions(
    deposit: Deposit<'_>,
    root: [u8; 32],
    claim: Word,
    s: &[u8],
) -> Result<(), Refusal>
    requires { Allowed (fixed_by deposit) s.now }
    ensures { answered result ≡ groups_number (fixed_by deposit.entry) root (word claim) s.now }
{
    let n = deposit.n;
    let groups = level_groups(deposit.how.set, n, deposit.k, n);
    let width = level_width(deposit.how.set, n, deposit.k, n);
    let ways = known_groups(deposit, root, s, groups);
    let mut at: usize = 4;
    for g in 0..groups {
        let v = group_at(s, at).unwrap();
        let first = Group::numbered(g).first_place(width);
        if let Err(fault) = opening_known(deposit, n, first, s, v.opening, root, ways[g]) {
            return Err(fault.of_tail());
        }
        at = v.next;
    }
    let first = first_value(s, groups);
    if first == claim {
        return Ok(());
    }
    Err(Refusal::Claim)
}

// 4, 5, 7, 14 and 27.
fn head_questions(deposit: Deposit<'_>, root: &[u8], s: &[u8]) -> Result<(), Refusal>
    ensures { answered result ≡ head_number (fixed_by deposit.entry) root.now s.now }
{
    let n = deposit.n;
    size_questions(n, deposit.k)?;
    if root.len() != 32 {
        return Err(Refusal::Length);
    }
    if deposit.base.len() > 200 {
        return Err(Refusal::Domain);
    }
    if !tail_whole(s) {
        return Err(Refusal::NotARecord);
    }
    if count_at(s, 0) != level_groups(deposit.how.set, n, deposit.k, n) {
        return Err(Refusal::GroupCount);
    }
    Ok(())
}

// Check a tail record, lent the last level's root and the terminal claim: 4, 5, 7, 14, 27, then group by group 28 to 30, and 31.
pub fn check_tail(deposit: Deposit<'_>, root: &[u8], claim: Word, s: &[u8]) -> Result<(), Refusal>
    ensures { answered result ≡ check_tail (fixed_by deposit.entry) root.now (word claim) s.now }
{
    head_questions(deposit, root, s)?;
    let last = load(root, 0);
    groups_questions(deposit, last, claim, s)
}
