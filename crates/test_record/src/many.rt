// Many records made of one: every byte changed, or every proper prefix; and how often each number is the answer.
ghost use Rattle.std.specs.Prelude.{◌≡◌};

use crate::key::deposit_of;
use std::alloc::AllocError;
use test_lines::answer::{Answer, number};
use test_lines::request::Request;
use test_lines::values::word;
use theory_record::Deposit;
use tree_place::Place;

// How often each number from 0 to 33 was the answer.
#[derive(Clone, Copy)]
struct Tally([u64; 34]);

impl Tally {
    fn count(&mut self, number: u64) {
        if let Some(times) = self.0.get_mut(number as usize) {
            *times = times.saturating_add(1);
        }
    }
}

// What the query check answers for a record, of the deposit of a request.
fn query_number(request: &Request, deposit: Deposit, position: usize, record: &[u8]) -> u64 {
    let place = Place::at(position);
    let (challenges, roots) = (request.words(0), request.bytes(1));
    match record_query_check::check_query(deposit, place, challenges, roots, record) {
        Ok(()) => 0,
        Err(rejection) => u64::from(rejection.refusal.number()),
    }
}

// What the tail check answers for a record, of the deposit of a request.
fn tail_number(request: &Request, deposit: Deposit, record: &[u8]) -> u64 {
    let claim = word(request.words(0), 0);
    number(&record_tail_check::check_tail(deposit, request.bytes(1), claim, record))
}

// The answers for the third input with each byte changed by each mask from 1 to 255 that is a number of steps after 1; of its length modulo 65536 bytes.
fn damaged<F: Fn(&Request) -> u64>(
    request: &Request,
    step: usize,
    check: F,
) -> Result<Answer, AllocError>
    requires { F.IsAlwaysCallable check }
{
    let mut tally = Tally([0; 34]);
    let record = request.bytes(2);
    let mut changed = request.clone()?;
    for (i, right) in record.iter().enumerate().take(record.len() % 65536) {
        for mask in 1..=255u8 {
            if step != 0 && usize::from(mask - 1) % step == 0 {
                changed.set_byte(2, i, *right ^ mask);
                tally.count(check(&changed));
            }
        }
        changed.set_byte(2, i, *right);
    }
    Ok(Answer::Many(tally.0))
}

// The answers for every proper prefix of the third input.
fn prefixes<F: Fn(&[u8]) -> u64>(request: &Request, check: F) -> Answer
    requires { F.IsAlwaysCallable check }
{
    let mut tally = Tally([0; 34]);
    let record = request.bytes(2);
    for count in 0..record.len() {
        tally.count(check(&record[..count]));
    }
    Answer::Many(tally.0)
}

pub fn damaged_query(request: &Request) -> Result<Answer, AllocError> {
    let [step, set, n, k, position] = request.numbers();
    damaged(request, step, |changed| {
        let deposit = deposit_of(changed, set, n, k);
        query_number(changed, deposit, position, changed.bytes(2))
    })
}

pub fn damaged_tail(request: &Request) -> Result<Answer, AllocError> {
    let [step, set, n, k, ..] = request.numbers();
    damaged(request, step, |changed| {
        tail_number(changed, deposit_of(changed, set, n, k), changed.bytes(2))
    })
}

pub fn prefixes_query(request: &Request) -> Answer {
    let [set, n, k, position, ..] = request.numbers();
    let deposit = deposit_of(request, set, n, k);
    prefixes(request, |record| {
        query_number(request, deposit, position, record)
    })
}

pub fn prefixes_tail(request: &Request) -> Answer {
    let [set, n, k, ..] = request.numbers();
    let deposit = deposit_of(request, set, n, k);
    prefixes(request, |record| { tail_number(request, deposit, record) })
}
