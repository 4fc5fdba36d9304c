// The parts of a whole run (SPECIFICATION 10.1): its questions, committing with the calls and the trees, each record built and checked, two records
// compared, all of one deposit. These are helpers for the whole run: most require that what they are lent has its length.
#![tactic(auto)]

pub mod questions;

ghost use Rattle.std.specs.Prelude.{◌≡◌, length};
ghost use Rattle.theory_laws.specs.Table.{tab};
ghost use Rattle.theory_laws.specs.Refusals.{answered};
ghost use Rattle.field_gf128.specs.Word.{word};
ghost use Rattle.theory_record.specs.Widths.{widths_of};
ghost use Rattle.theory_record.specs.Query.{check_query};
ghost use Rattle.theory_record.specs.Tail.{check_tail};
ghost use Rattle.theory_record.specs.Build.{build_query};
ghost use Rattle.theory_record.specs.Lent.{fixed_by};
ghost use Rattle.record_query_check.specs.Answer.{answer};
ghost use Rattle.theory_compare.specs.Compare.{compared, first_message, second_message};
ghost use Rattle.compare_records.specs.Answers.{comparison};
ghost use Rattle.claim_run_parts.specs.Parts.{last_root};
ghost use Rattle.claim_run_parts.specs.helpers.Room.{CommitLent, CommitLeft, DepositLent, DepositLeft, LastRoom, tail_lent};

use claim_fold_calls::fold_calls;
use code_commit::commit;
use code_commit::trees::tree_bytes;
use code_level::level_length;
use code_level_trees::level_trees;
use compare_records::{Messages, compare};
use field_gf128::Word;
use record_query_build::build_query;
use record_query_check::{Rejection, check_query};
use record_tail_build::build_tail;
use record_tail_check::check_tail;
use theory_laws::Refusal;
use theory_record::Deposit;
use tree_place::Place;

// A table committed: its gammas, level 0 at the front of the levels, its list, and level 0's tree at the front of the trees.
fn commit_first<'a>(
    deposit: Deposit<'a>,
    table: &[u64],
    gammas: &mut [u64],
    levels: &mut [u64],
    coordinates: &mut [usize],
    trees: &mut [u8],
)
    requires { CommitLent deposit table gammas levels coordinates trees }
    ensures { CommitLeft deposit.entry table gammas levels coordinates trees }
{
    let size = 2 * level_length(deposit.n, deposit.k, 0);
    let bytes = tree_bytes(deposit.how.set, deposit.n, deposit.k, 0);
    commit(
        deposit.how,
        deposit.n,
        deposit.k,
        deposit.base,
        table,
        gammas,
        &mut levels[..size],
        coordinates,
        &mut trees[..bytes],
    )
    .unwrap();
}

// A table committed, the calls of a lent list on its codeword, and the trees and roots of all levels: how many calls are done. The list that
// is left stands at the front of `coordinates`, zeros behind it, and the challenges of the done ones are kept; `half` is room for a fold and is left
// with zeros.
pub fn deposit<'a>(
    deposit: Deposit<'a>,
    table: &[u64],
    calls: &[usize],
    challenges: &[u64],
    gammas: &mut [u64],
    levels: &mut [u64],
    coordinates: &mut [usize],
    half: &mut [u64],
    kept: &mut [u64],
    trees: &mut [u8],
    roots: &mut [u8],
) -> usize
    requires { DepositLent deposit table calls challenges gammas levels coordinates half kept trees roots }
    ensures deposit_left { DepositLeft deposit.entry table calls challenges gammas levels coordinates kept trees roots result }
    ensures half_after { half.new ≡ tab (length half.old) (λ v. 0) }
{
    commit_first(deposit, table, gammas, levels, coordinates, trees);
    let done = fold_calls(
        deposit.n,
        deposit.k,
        calls,
        challenges,
        levels,
        coordinates,
        half,
        kept,
    );
    level_trees(deposit, levels, trees, roots);
    done
}

// The query record at a position, built and checked. Where nothing is built, the check refuses what stands in the buffer.
pub fn query_record<'a>(
    deposit: Deposit<'a>,
    position: usize,
    levels: &[u64],
    trees: &[u8],
    kept: &[u64],
    roots: &[u8],
    out: &mut [u8],
) -> Result<(), Rejection>
    ensures out_after { out.new ≡ build_query (widths_of deposit.entry.how.set) deposit.entry.n deposit.entry.k levels.now trees.now position out.old }
    ensures result_value { answer result ≡ check_query (fixed_by deposit.entry) position kept.now roots.now out.new }
{
    let set = deposit.how.set;
    let place = Place::at(position);
    let _ = build_query(out, levels, trees, set, deposit.n, deposit.k, place);
    check_query(deposit, place, kept, roots, out)
}

// The tail record, built from the last level and its tree, and checked under the last root. Where nothing is built, the buffer is as it was, and
// the check puts its questions to what stands there.
pub fn tail_record<'a>(
    deposit: Deposit<'a>,
    claim: Word,
    levels: &[u64],
    trees: &[u8],
    roots: &[u8],
    out: &mut [u8],
) -> Result<(), Refusal>
    requires { LastRoom (widths_of deposit.how.set) deposit.n deposit.k (length levels.now) (length trees.now) (length roots.now) }
    ensures out_after { out.new ≡ tail_lent deposit.entry levels trees out }
    ensures value { answered result ≡ check_tail (fixed_by deposit.entry) (last_root roots.now) (word claim) out.new }
{
    let set = deposit.how.set;
    let from = levels.len() - 2 * level_length(deposit.n, deposit.k, deposit.n);
    let at = trees.len() - tree_bytes(set, deposit.n, deposit.k, deposit.n);
    let last = roots.len() - 32;
    let _ = build_tail(
        out,
        &levels[from..],
        &trees[at..],
        set,
        deposit.n,
        deposit.k,
    );
    check_tail(deposit, &roots[last..], claim, out)
}

// Two records for a position compared, into two message buffers.
pub fn two_records<'a>(
    deposit: Deposit<'a>,
    position: usize,
    kept: &[u64],
    roots: &[u8],
    first: &[u8],
    second: &[u8],
    one: &mut [u8],
    two: &mut [u8],
) -> Result<Messages, Refusal>
    ensures result_value { comparison result ≡ compared (fixed_by deposit.entry) position kept.now roots.now first.now second.now one.old two.old }
    ensures one_after { one.new ≡ first_message (fixed_by deposit.entry) position kept.now roots.now first.now second.now one.old two.old }
    ensures two_after { two.new ≡ second_message (fixed_by deposit.entry) position kept.now roots.now first.now second.now one.old two.old }
{
    let place = Place::at(position);
    compare(deposit, place, kept, roots, first, second, one, two)
}
