// Query and tail records built and checked, and two query records compared.
ghost use Rattle.std.specs.Prelude.{◌≡◌};
ghost use Rattle.field_gf128.specs.Word.{word};
ghost use Rattle.record_query_check.specs.Answer as check;
ghost use Rattle.compare_records.specs.Answers.{comparison};
ghost use Rattle.export_dequmlo.specs.Answers.{checked, compared};
ghost use Rattle.export_dequmlo.specs.Records.{query_number, query_left, query_answer, tail_number, tail_left, tail_answer};
ghost use Rattle.export_dequmlo.specs.Records.{compared_answer, first_after, second_after};

use crate::answers::number_of;
use crate::keys::{Key, deposit_of};
use crate::sets::set_named;
use compare_records::Messages;
use field_gf128::Word;
use record_query_check::Rejection;
use theory_laws::Refusal;
use tree_place::Place;

// The query record at a position, from all levels and their trees end to end: 4, 5, 11.
pub fn dequmlo_build_query(
    out: &mut [u8],
    levels: &[u64],
    trees: &[u8],
    widths: u32,
    n: usize,
    k: usize,
    position: usize,
) -> u32
    ensures value { result ≡ query_number out levels trees widths n k position }
    ensures out_after { out.new ≡ query_left out levels trees widths n k position }
{
    match set_named(widths) {
        Ok(set) => {
            let place = Place::at(position);
            number_of(record_query_build::build_query(out, levels, trees, set, n, k, place))
        }
        Err(refusal) => refusal.number(),
    }
}

// The number, and the level for 16 to 26.
#[repr(C)]
#[derive(Clone, Copy)]
pub struct Checked {
    pub number: u32,
    pub level: u32,
}

// The answer of a check.
fn check_answered(answer: Result<(), Rejection>) -> Checked
    ensures { checked result ≡ check.answer answer }
{
    match answer {
        Ok(()) => Checked {
            number: 0,
            level: 0,
        },
        Err(rejection) => Checked {
            number: rejection.refusal.number(),
            level: rejection.level,
        },
    }
}

// A query record checked: 4, 5, 7, 11, 14 to 26.
pub fn dequmlo_check_query(
    key: Key,
    base: &[u8],
    widths: u32,
    n: usize,
    k: usize,
    position: usize,
    challenges: &[u64],
    roots: &[u8],
    bytes: &[u8],
) -> Checked
    ensures { checked result ≡ query_answer key base widths n k position challenges roots bytes }
{
    match deposit_of(key, widths, base, n, k) {
        Ok(deposit) => {
            let place = Place::at(position);
            check_answered(record_query_check::check_query(
                deposit, place, challenges, roots, bytes,
            ))
        }
        Err(refusal) => Checked {
            number: refusal.number(),
            level: 0,
        },
    }
}

// The tail record of the last level and its tree: 4, 5.
pub fn dequmlo_build_tail(
    out: &mut [u8],
    level: &[u64],
    tree: &[u8],
    widths: u32,
    n: usize,
    k: usize,
) -> u32
    ensures value { result ≡ tail_number out level tree widths n k }
    ensures out_after { out.new ≡ tail_left out level tree widths n k }
{
    match set_named(widths) {
        Ok(set) => number_of(record_tail_build::build_tail(out, level, tree, set, n, k)),
        Err(refusal) => refusal.number(),
    }
}

// A tail record checked against the last level's root and the terminal claim: 4, 5, 7, 14, 27 to 31.
pub fn dequmlo_check_tail(
    key: Key,
    base: &[u8],
    widths: u32,
    n: usize,
    k: usize,
    root: &[u8],
    claim: Word,
    bytes: &[u8],
) -> u32
    ensures { result ≡ tail_answer key base widths n k root (word claim) bytes }
{
    match deposit_of(key, widths, base, n, k) {
        Ok(deposit) => number_of(record_tail_check::check_tail(deposit, root, claim, bytes)),
        Err(refusal) => refusal.number(),
    }
}

// The number, and the lengths of the two messages, 0 where it is refused.
#[repr(C)]
#[derive(Clone, Copy)]
pub struct Compared {
    pub number: u32,
    pub first: usize,
    pub second: usize,
}

// The answer of a comparison.
fn compare_answered(answer: Result<Messages, Refusal>) -> Compared
    ensures { compared result ≡ comparison answer }
{
    match answer {
        Ok(messages) => Compared {
            number: 0,
            first: messages.first,
            second: messages.second,
        },
        Err(refusal) => Compared {
            number: refusal.number(),
            first: 0,
            second: 0,
        },
    }
}

// Two query records of one position compared: 4, 5, 7, 11, 32, 33. Where they differ, the two messages nearest the root that differ go into
// the buffers, of 1,024 bytes each.
pub fn dequmlo_compare(
    key: Key,
    base: &[u8],
    widths: u32,
    n: usize,
    k: usize,
    position: usize,
    challenges: &[u64],
    roots: &[u8],
    first: &[u8],
    second: &[u8],
    one: &mut [u8],
    two: &mut [u8],
) -> Compared
    ensures result_value { compared result ≡ compared_answer key base widths n k position challenges roots first second one two }
    ensures one_after { one.new ≡ first_after key base widths n k position challenges roots first second one two }
    ensures two_after { two.new ≡ second_after key base widths n k position challenges roots first second one two }
{
    match deposit_of(key, widths, base, n, k) {
        Ok(deposit) => compare_answered(compare_records::compare(
            deposit,
            Place::at(position),
            challenges,
            roots,
            first,
            second,
            one,
            two,
        )),
        Err(refusal) => Compared {
            number: refusal.number(),
            first: 0,
            second: 0,
        },
    }
}
