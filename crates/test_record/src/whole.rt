// The whole run, on deposits of at most 16 words with k at most 2.
use crate::key::deposit_of;
use claim_whole_run::Answers;
use std::alloc::{AllocError, Global};
use test_lines::answer::{Answer, no_room, number};
use test_lines::request::{Lent, Request, first, listed, two};
use test_lines::values::{put, word};

// What a run has written: the roots, both records and both messages, end to end.
fn put_left(
    alloc: Global,
    out: &mut [u8],
    roots: &[u8],
    query: &[u8],
    tail: &[u8],
    one: &[u8],
    other: &[u8],
) -> Result<(), AllocError> {
    let mut left = Vec::new(alloc);
    for part in [roots, query, tail, one, other] {
        left.extend_from_slice(part)?;
    }
    put(out, left.as_slice());
    Ok(())
}

// As much of a buffer as a list of sizes has at a place.
fn lent_of<'a, T>(buffer: &'a mut [T], sizes: &[usize], i: usize) -> &'a mut [T] {
    let size = sizes.get(i).copied().unwrap_or(0);
    let end = size.min(buffer.len());
    &mut buffer[..end]
}

// How many calls are done, the level of the query check, and the lengths of the messages.
fn put_counts(out: &mut [u8], answers: &Answers) {
    let level = match answers.query {
        Ok(()) => 0,
        Err(rejection) => rejection.level,
    };
    let (first, second) = match answers.compared {
        Ok(messages) => (messages.first, messages.second),
        Err(_) => (0, 0),
    };
    let counts = [
        answers.done as u64,
        u64::from(level),
        first as u64,
        second as u64,
    ];
    let bytes = counts.iter().flat_map(|x| x.to_le_bytes());
    for (place, byte) in out.iter_mut().zip(bytes) {
        *place = byte;
    }
}

// A run on the table, the calls, of at most 64 numbers, their challenges and the claim, lent buffers of the sizes in a list beside the coordinates and
// the kept challenges. It answers the numbers of the run, of both checks and of the comparison, and beside what is written how many calls are done, the
// level of the query check, and the lengths of the messages.
pub fn run(alloc: Global, request: &Request, lent: &mut Lent) -> Result<Answer, AllocError> {
    let [set, n, k, position, ..] = request.numbers();
    let calls = request.list(0);
    let sizes = request.list(1);
    if calls.len() > 64 {
        return Ok(no_room());
    }
    let mut gammas = [0u64; 16];
    let mut levels = [0u64; 256];
    let mut half = [0u64; 64];
    let mut trees = [0u8; 2048];
    let mut roots = [0xa5u8; 160];
    let mut query = [0xa5u8; 1640];
    let mut tail = [0xa5u8; 160];
    let mut one = [0xa5u8; 1032];
    let mut other = [0xa5u8; 1032];
    let r = claim_whole_run::run(
        deposit_of(request, set, n, k),
        position,
        word(request.words(2), 0),
        request.words(0),
        calls,
        request.words(1),
        request.bytes(1),
        request.bytes(2),
        lent_of(&mut gammas, sizes, 0),
        lent_of(&mut levels, sizes, 1),
        listed(&mut lent.list),
        lent_of(&mut half, sizes, 2),
        first(&mut lent.words),
        lent_of(&mut trees, sizes, 3),
        lent_of(&mut roots, sizes, 4),
        lent_of(&mut query, sizes, 5),
        lent_of(&mut tail, sizes, 6),
        lent_of(&mut one, sizes, 7),
        lent_of(&mut other, sizes, 8),
    );
    let (left, counts) = two(&mut lent.bytes);
    put_left(alloc, left, &roots, &query, &tail, &one, &other)?;
    Ok(match r {
        Ok(answers) => {
            put_counts(counts, &answers);
            let query = match answers.query {
                Ok(()) => 0,
                Err(rejection) => u64::from(rejection.refusal.number()),
            };
            Answer::Four(0, query, number(&answers.tail), number(&answers.compared))
        }
        Err(refusal) => {
            put(counts, &[0; 32]);
            Answer::Four(u64::from(refusal.number()), 0, 0, 0)
        }
    })
}
