// How trees are made: a set of widths by its number, and the key that lines set.
use hash_modes::{hash_mode, keyed_mode};
use test_lines::request::Request;
use theory_blake3::Mode;
use theory_record::{Deposit, Trees, WidthSet};

// The mode that trees are hashed under.
pub fn mode_of(request: &Request) -> Mode {
    match request.key() {
        Some(key) => keyed_mode(key),
        None => hash_mode(),
    }
}

// A set of widths by its number.
pub fn set_of(number: usize) -> WidthSet {
    match number {
        0 => WidthSet::Present,
        _ => WidthSet::Wide,
    }
}

// How trees are made: their widths by the set's number, under the key that is set.
pub fn trees_of(request: &Request, number: usize) -> Trees {
    Trees {
        set: set_of(number),
        mode: mode_of(request),
    }
}

// A deposit of a request's first bytes as base domain, with a set of widths by its number, n and k.
pub fn deposit_of(request: &Request, number: usize, n: usize, k: usize) -> Deposit<'_> {
    Deposit {
        how: trees_of(request, number),
        base: request.bytes(0),
        n,
        k,
    }
}
