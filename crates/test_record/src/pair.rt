// Two records compared, and the picking of messages of two chains, which a test can give a digest that has collisions.
use crate::key::deposit_of;
use test_lines::answer::{Answer, no_room};
use test_lines::request::{Lent, Request, two};
use tree_place::Place;

pub fn compare(request: &Request, lent: &mut Lent) -> Answer {
    let [set, n, k, position, ..] = request.numbers();
    let (one, other) = two(&mut lent.bytes);
    let compared = compare_records::compare(
        deposit_of(request, set, n, k),
        Place::at(position),
        request.words(0),
        request.bytes(1),
        request.bytes(2),
        request.bytes(3),
        one,
        other,
    );
    match compared {
        Ok(messages) => Answer::Three(0, messages.first as u64, messages.second as u64),
        Err(refusal) => Answer::Three(u64::from(refusal.number()), 0, 0),
    }
}

// Two chains: the lengths of their first message and of the others, and how many others.
pub fn walk(request: &Request, lent: &mut Lent) -> Answer {
    let [leaf, node, depth, ..] = request.numbers();
    let (s, t) = (request.bytes(0), request.bytes(1));
    let (one, other) = two(&mut lent.bytes);
    if leaf == 0 || leaf > 1024 || node == 0 || node > 1024 || depth > 64 {
        return no_room();
    }
    let whole = leaf + node * depth;
    if s.len() < whole || t.len() < whole || one.len() != 1024 || other.len() != 1024 {
        return no_room();
    }
    let length = compare_pick::pick_last(s, t, leaf, node, depth, one, other).unwrap_or(0) as u64;
    Answer::Three(0, length, length)
}
