// The whole run (SPECIFICATION 10.1) over plain lent buffers, after eval.rs and ring.rs. The entry is `run`; the other function requires that what it
// is lent has its length.
#![tactic(auto)]

ghost use Rattle.field_gf128.specs.Word.{word};
ghost use Rattle.claim_run_parts.specs.helpers.Room.{DepositLent, RecordLent};
ghost use Rattle.claim_whole_run.specs.Whole.{given, buffers, in_numbers, RunLeft};
ghost use Rattle.claim_whole_run.specs.helpers.Done.{RunDone};

use claim_run_parts::questions::Lengths;
use claim_run_parts::{deposit, query_record, tail_record, two_records};
use compare_records::Messages;
use field_gf128::Word;
use record_query_check::Rejection;
use theory_laws::Refusal;
use theory_record::Deposit;

// What a run answers: how many calls are done; what the check of the query record answered, and that of the tail record; and what comparing the
// two lent records answered.
#[derive(Clone, Copy, Debug, PartialEq, Eq)]
pub struct Answers {
    pub done: usize,
    pub query: Result<(), Rejection>,
    pub tail: Result<(), Refusal>,
    pub compared: Result<Messages, Refusal>,
}

// The run, once its questions are answered.
fn made<'a>(
    fixed: Deposit<'a>,
    position: usize,
    claim: Word,
    table: &[u64],
    calls: &[usize],
    challenges: &[u64],
    first: &[u8],
    second: &[u8],
    gammas: &mut [u64],
    levels: &mut [u64],
    coordinates: &mut [usize],
    half: &mut [u64],
    kept: &mut [u64],
    trees: &mut [u8],
    roots: &mut [u8],
    query: &mut [u8],
    tail: &mut [u8],
    one: &mut [u8],
    two: &mut [u8],
) -> Answers
    requires { DepositLent fixed table calls challenges gammas levels coordinates half kept trees roots × RecordLent fixed position query tail one two }
    ensures { RunDone (given fixed.entry position (word claim) table calls challenges first second)
        (buffers gammas levels coordinates half kept trees roots query tail one two) result }
{
    let done = deposit(
        fixed,
        table,
        calls,
        challenges,
        gammas,
        levels,
        coordinates,
        half,
        kept,
        trees,
        roots,
    );
    let checked = query_record(fixed, position, levels, trees, kept, roots, query);
    let claimed = tail_record(fixed, claim, levels, trees, roots, tail);
    let compared = two_records(fixed, position, kept, roots, first, second, one, two);
    Answers {
        done,
        query: checked,
        tail: claimed,
        compared,
    }
}

// The whole run under one set of widths and one mode: a table committed, the calls of a lent list on its codeword with its list of coordinates, the levels'
// trees and roots, the query record at a position and the tail record, built and checked, the tail's for a claim, and two lent records for that
// position compared under the kept challenges and the roots. What any calls leave is settled, the codeword block by block. Where the done calls are
// n folds at variable 0 by r, the query record is accepted, and the tail record exactly for the claim P(r). It refuses with 4, 5, 7 and 11, and then
// changes no lent byte.
pub fn run<'a>(
    fixed: Deposit<'a>,
    position: usize,
    claim: Word,
    table: &[u64],
    calls: &[usize],
    challenges: &[u64],
    first: &[u8],
    second: &[u8],
    gammas: &mut [u64],
    levels: &mut [u64],
    coordinates: &mut [usize],
    half: &mut [u64],
    kept: &mut [u64],
    trees: &mut [u8],
    roots: &mut [u8],
    query: &mut [u8],
    tail: &mut [u8],
    one: &mut [u8],
    two: &mut [u8],
) -> Result<Answers, Refusal>
    ensures { RunLeft (given fixed.entry position (word claim) table calls challenges first second)
        (buffers gammas levels coordinates half kept trees roots query tail one two) (in_numbers result) }
{
    let lengths = Lengths {
        base: fixed.base.len(),
        table: table.len(),
        calls: calls.len(),
        challenges: challenges.len(),
        gammas: gammas.len(),
        levels: levels.len(),
        coordinates: coordinates.len(),
        half: half.len(),
        kept: kept.len(),
        trees: trees.len(),
        roots: roots.len(),
        query: query.len(),
        tail: tail.len(),
        one: one.len(),
        two: two.len(),
    };
    lengths.questions(fixed.how.set, fixed.n, fixed.k, position)?;
    let answers = made(
        fixed,
        position,
        claim,
        table,
        calls,
        challenges,
        first,
        second,
        gammas,
        levels,
        coordinates,
        half,
        kept,
        trees,
        roots,
        query,
        tail,
        one,
        two,
    );
    Ok(answers)
}
