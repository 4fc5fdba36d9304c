// A level of a commitment, and its tree, in parts, for callers that divide the work: each entry makes the level's lengths, width and domain
// itself and writes into a lent buffer of its own. A refused call changes no lent byte. The entries are `next_part`, `level_leaves` and
// `level_parents`; the functions that do their work require.
#![tactic(auto)]

ghost use Rattle.std.specs.Prelude.{◌≡◌, suc, ◌+◌, ◌*◌, ◌/◌, ◌≤◌, ◌<◌, leb, length};
ghost use Rattle.theory_laws.specs.Lists.{part, flat};
ghost use Rattle.theory_laws.specs.Questions.{on_done};
ghost use Rattle.theory_laws.specs.Refusals.{answered};
ghost use Rattle.theory_field.specs.Words.{words};
ghost use Rattle.field_gf128.specs.Word.{word};
ghost use Rattle.theory_record.specs.Widths.{widths_of, level_length, level_groups};
ghost use Rattle.theory_record.specs.Domain.{level_domain};
ghost use Rattle.theory_record.specs.Lent.{fixed_by};
ghost use Rattle.theory_record.specs.Trees.{tree_for};
ghost use Rattle.code_parts.specs.Parts.{part_of_fold, fold_part_into};
ghost use Rattle.tree_parts.specs.Parts.{parents_of};
ghost use Rattle.theory_blake3.specs.Modes.{under};
ghost use Rattle.code_level_parts.specs.Numbers.{next_part_number, level_leaves_number, level_parents_number};
ghost use Rattle.code_level_parts.specs.Parts.{level_leaves_of, level_leaves_lent};
ghost use Rattle.code_level_parts.specs.helpers.Fits.{NextFits, LeavesFit, ParentsFit};

use code_level::{DOMAIN, level_domain, level_groups, level_length, level_width, size_questions};
use field_gf128::Word;
use theory_blake3::Mode;
use theory_laws::Refusal;
use theory_record::{Deposit, Trees, WidthSet};
use tree_digest::Hashing;
use tree_place::{Shape, ends_within};

// ---- the next level

// Are m entries from entry `first` on all entries of the level after level l?
fn in_next(first: usize, m: usize, n: usize, k: usize, l: usize) -> bool
    requires { (n + k ≤ 24) × (l < n) }
    ensures { result ≡ leb (first + m) (level_length n k (suc l)) }
{
    ends_within(first, m, level_length(n, k, l + 1))
}

// 4, 5 and 11.
fn next_questions(
    n: usize,
    k: usize,
    l: usize,
    first: usize,
    values: usize,
    out: usize,
) -> Result<(), Refusal>
    ensures { answered result ≡ next_part_number n k l first values out }
{
    size_questions(n, k)?;
    if l >= n {
        return Err(Refusal::Parameters);
    }
    if values != 2 * level_length(n, k, l) {
        return Err(Refusal::Length);
    }
    if out % 2 != 0 {
        return Err(Refusal::Length);
    }
    if !in_next(first, out / 2, n, k, l) {
        return Err(Refusal::Place);
    }
    Ok(())
}

// The entries, once the questions are answered: a fold of level l, whose n is n - l, at variable 0.
fn put_next(n: usize, k: usize, l: usize, r: Word, first: usize, values: &[u64], out: &mut [u64])
    requires { NextFits n k l first (length values.now) (length out.old) }
    ensures { words out.new ≡ part_of_fold (length out.old / 2) first 0 (word r) values.now }
{
    code_parts::fold_part(n - l, k, 0, r, first, values, out).unwrap();
}

// Entries of level l + 1, from entry `first` on, as many as the buffer has room for: level l folded at variable 0 by r. It refuses n that is
// not from 1 to 20, k past 4 or l that is not below n with 4, lengths that are not theirs with 5, and entries that are not all the next
// level's with 11.
pub fn next_part(
    n: usize,
    k: usize,
    l: usize,
    r: Word,
    first: usize,
    values: &[u64],
    out: &mut [u64],
) -> Result<(), Refusal>
    ensures value { answered result ≡ next_part_number n k l first (length values.now) (length out.old) }
    ensures out_after { words out.new ≡ fold_part_into (answered result) first 0 (word r) values.now out.old }
{
    next_questions(n, k, l, first, values.len(), out.len())?;
    put_next(n, k, l, r, first, values, out);
    Ok(())
}

// ---- the tree of a level

// Are m groups from group `first` on all groups of level l?
fn in_groups(first: usize, m: usize, set: WidthSet, n: usize, k: usize, l: usize) -> bool
    requires { (n + k ≤ 24) × (l ≤ n) }
    ensures { result ≡ leb (first + m) (level_groups (widths_of set) n k l) }
{
    ends_within(first, m, level_groups(set, n, k, l))
}

// 4, 5, 7 and 11.
fn leaves_questions(
    set: WidthSet,
    n: usize,
    k: usize,
    l: usize,
    base: usize,
    first: usize,
    values: usize,
    out: usize,
) -> Result<(), Refusal>
    ensures { answered result ≡ level_leaves_number (widths_of set) n k l base first values out }
{
    size_questions(n, k)?;
    if l > n {
        return Err(Refusal::Parameters);
    }
    if values != 2 * level_length(n, k, l) {
        return Err(Refusal::Length);
    }
    if out % 32 != 0 {
        return Err(Refusal::Length);
    }
    if base > 200 {
        return Err(Refusal::Domain);
    }
    if !in_groups(first, out / 32, set, n, k, l) {
        return Err(Refusal::Place);
    }
    Ok(())
}

// The leaves, once the questions are answered.
fn put_leaves<'a>(deposit: Deposit<'a>, l: usize, first: usize, values: &[u64], out: &mut [u8])
    requires { LeavesFit (widths_of deposit.how.set) deposit.n deposit.k l (length deposit.base.now) first (length values.now) (length out.old) }
    ensures { out.new ≡ part (length out.old) (32 * first) (flat (tree_for (fixed_by deposit.entry) l (words values.now))) }
{
    let mut domain = [0u8; DOMAIN];
    let size = level_domain(&mut domain, deposit.base, l);
    let hashing = Hashing {
        mode: deposit.how.mode,
        domain: &domain[..size],
    };
    let count = level_length(deposit.n, deposit.k, l);
    let width = level_width(deposit.how.set, deposit.n, deposit.k, l);
    tree_parts::leaves(hashing, Shape { count, width }, first, values, out).unwrap();
}

// Leaves of level l's tree by a set of widths and a mode, from group `first` on, as many as the buffer has room for. Lent is the whole level. It refuses n
// that is not from 1 to 20, k past 4 or l past n with 4, lengths that are not theirs with 5, a base domain of more than 200 bytes with 7, and
// groups that are not all the level's with 11.
pub fn level_leaves(
    how: Trees,
    n: usize,
    k: usize,
    l: usize,
    base: &[u8],
    first: usize,
    values: &[u64],
    out: &mut [u8],
) -> Result<(), Refusal>
    ensures value { answered result ≡ level_leaves_lent how n k l base first values out }
    ensures out_after { out.new ≡ on_done (answered result) (level_leaves_of how n k l base first values out) out.old }
{
    leaves_questions(how.set, n, k, l, base.len(), first, values.len(), out.len())?;
    let deposit = Deposit { how, base, n, k };
    put_leaves(deposit, l, first, values, out);
    Ok(())
}

// 4, 5 and 7.
fn parents_questions(
    n: usize,
    k: usize,
    l: usize,
    base: usize,
    children: usize,
    out: usize,
) -> Result<(), Refusal>
    ensures { answered result ≡ level_parents_number n k l base children out }
{
    size_questions(n, k)?;
    if l > n {
        return Err(Refusal::Parameters);
    }
    if children % 64 != 0 {
        return Err(Refusal::Length);
    }
    if out != children / 2 {
        return Err(Refusal::Length);
    }
    if base > 200 {
        return Err(Refusal::Domain);
    }
    Ok(())
}

// The parents, once the questions are answered.
fn put_parents(mode: Mode, l: usize, base: &[u8], height: usize, children: &[u8], out: &mut [u8])
    requires { ParentsFit l (length base.now) (length children.now) (length out.old) }
    ensures { out.new ≡ parents_of (under mode) (level_domain base.now l) height children.now }
{
    let mut domain = [0u8; DOMAIN];
    let size = level_domain(&mut domain, base, l);
    let hashing = Hashing {
        mode,
        domain: &domain[..size],
    };
    tree_parts::parents(hashing, height, children, out).unwrap();
}

// The parents of digests of level l's tree, two by two; those of its leaves are at height 0. It refuses n that is not from 1 to 20, k past 4 or
// l past n with 4, lengths that are not those of two digests for each that there is room for with 5, and a base domain of more than 200
// bytes with 7.
pub fn level_parents(
    mode: Mode,
    n: usize,
    k: usize,
    l: usize,
    base: &[u8],
    height: usize,
    children: &[u8],
    out: &mut [u8],
) -> Result<(), Refusal>
    ensures value { answered result ≡ level_parents_number n k l (length base.now) (length children.now) (length out.old) }
    ensures out_after { out.new
        ≡ on_done (answered result) (parents_of (under mode) (level_domain base.now l) height children.now) out.old }
{
    parents_questions(n, k, l, base.len(), children.len(), out.len())?;
    put_parents(mode, l, base, height, children, out);
    Ok(())
}
