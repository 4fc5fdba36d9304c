// Trees over groups of words: digests, trees, paths and roots.
use crate::hash::done_or_refused;
use crate::key::mode_of;
use test_lines::answer::{Answer, no_room};
use test_lines::request::{Lent, Request, first};
use tree_digest::Hashing;
use tree_place::{Group, Place, Shape};

// The hashing of the tree whose domain is a request's first bytes.
fn hashing_of(request: &Request) -> Hashing<'_> {
    Hashing {
        mode: mode_of(request),
        domain: request.bytes(0),
    }
}

pub fn leaf_digest(request: &Request, lent: &mut Lent) -> Answer {
    let [count, width, place, ..] = request.numbers();
    let hashing = hashing_of(request);
    let shape = Shape { count, width };
    done_or_refused(
        lent,
        hashing.leaf_digest(shape, Place::at(place), request.words(0)),
    )
}

pub fn node_digest(request: &Request, lent: &mut Lent) -> Answer {
    let [level, ..] = request.numbers();
    let hashing = hashing_of(request);
    done_or_refused(
        lent,
        hashing.node_digest(level, request.bytes(1), request.bytes(2)),
    )
}

pub fn build(request: &Request, lent: &mut Lent) -> Answer {
    let [count, width, ..] = request.numbers();
    let tree = first(&mut lent.bytes);
    let hashing = hashing_of(request);
    Answer::from(tree_build::build(hashing, Shape { count, width }, request.words(0), tree))
}

pub fn open(request: &Request, lent: &mut Lent) -> Answer {
    let [count, width, place, ..] = request.numbers();
    let path = first(&mut lent.bytes);
    let shape = Shape { count, width };
    Answer::from(tree_path::open(shape, Place::at(place), request.bytes(0), path))
}

pub fn root_of_path(request: &Request, lent: &mut Lent) -> Answer {
    let [count, width, place, ..] = request.numbers();
    let root = tree_path::root_of_path(
        hashing_of(request),
        Shape { count, width },
        Place::at(place),
        request.words(0),
        request.bytes(1),
    );
    done_or_refused(lent, root)
}

// The length of a leaf's message, for domains of at most 255 bytes and groups of at most 8 words.
pub fn leaf_message(request: &Request, _lent: &mut Lent) -> Answer {
    let [count, width, group, ..] = request.numbers();
    let domain = request.bytes(0);
    let values = request.words(0);
    if domain.len() > 255 || width > 8 || values.len() != 2 * width {
        return no_room();
    }
    let mut message = [0u8; 512];
    let prefix = tree_message::leaf_prefix(&mut message, domain, Shape { count, width });
    let group = Group::numbered(group);
    let length = tree_message::leaf_rest(&mut message, prefix, width, group, values);
    Answer::Two(0, length as u64)
}

pub fn leaves(request: &Request, lent: &mut Lent) -> Answer {
    let [count, width, start, ..] = request.numbers();
    let out = first(&mut lent.bytes);
    let hashing = hashing_of(request);
    let shape = Shape { count, width };
    Answer::from(tree_parts::leaves(hashing, shape, start, request.words(0), out))
}

pub fn parents(request: &Request, lent: &mut Lent) -> Answer {
    let [level, ..] = request.numbers();
    let out = first(&mut lent.bytes);
    Answer::from(tree_parts::parents(hashing_of(request), level, request.bytes(1), out))
}
