// Query and tail records, checked and built: ring.rs; and their sizes.
use crate::key::{deposit_of, set_of};
use test_lines::answer::Answer;
use test_lines::request::{Lent, Request, first};
use test_lines::values::word;
use tree_place::Place;

pub fn check_query(request: &Request, _lent: &mut Lent) -> Answer {
    let [set, n, k, position, ..] = request.numbers();
    let checked = record_query_check::check_query(
        deposit_of(request, set, n, k),
        Place::at(position),
        request.words(0),
        request.bytes(1),
        request.bytes(2),
    );
    match checked {
        Ok(()) => Answer::Two(0, 0),
        Err(rejection) => Answer::Two(
            u64::from(rejection.refusal.number()),
            u64::from(rejection.level),
        ),
    }
}

pub fn check_tail(request: &Request, _lent: &mut Lent) -> Answer {
    let [set, n, k, ..] = request.numbers();
    let deposit = deposit_of(request, set, n, k);
    let claim = word(request.words(0), 0);
    let record = request.bytes(2);
    Answer::from(record_tail_check::check_tail(deposit, request.bytes(1), claim, record))
}

pub fn build_query(request: &Request, lent: &mut Lent) -> Answer {
    let [set, n, k, position, ..] = request.numbers();
    Answer::from(record_query_build::build_query(
        first(&mut lent.bytes),
        request.words(0),
        request.bytes(0),
        set_of(set),
        n,
        k,
        Place::at(position),
    ))
}

pub fn build_tail(request: &Request, lent: &mut Lent) -> Answer {
    let [set, n, k, ..] = request.numbers();
    Answer::from(record_tail_build::build_tail(
        first(&mut lent.bytes),
        request.words(0),
        request.bytes(0),
        set_of(set),
        n,
        k,
    ))
}

// The bytes of all trees, of a query record and of a tail record.
pub fn sizes(request: &Request, _lent: &mut Lent) -> Answer {
    let [set, n, k, ..] = request.numbers();
    let set = set_of(set);
    match code_level::size_questions(n, k) {
        Ok(()) => Answer::Four(
            0,
            code_level::trees_size(set, n, k) as u64,
            record_query_build::query_size(set, n, k) as u64,
            record_tail_build::tail_size(set, n, k) as u64,
        ),
        Err(refusal) => Answer::One(u64::from(refusal.number())),
    }
}
