// The first pass over a query record: what is known of the openings of its levels. The functions require.
ghost use Rattle.std.specs.Prelude.{◌≡◌, ◌+◌, ◌<◌, ◌≤◌, length};
ghost use Rattle.theory_record.specs.Lent.{fixed_by};
ghost use Rattle.tree_place.specs.Place.{index};
ghost use Rattle.record_known.specs.helpers.Domains.{level_in, OneDigitCount};
ghost use Rattle.record_known.specs.helpers.Lanes.{InRange};
ghost use Rattle.record_known.specs.helpers.Known.{LaneAt, EndsAt, levels, LevelsLent, FourLevels, LevelsKnown, four_known};

use crate::{NO_OPENING, OPENINGS, four_ends, lane_of, level_in, put_domains, settle};
use bytes_numbers::load;
use record_reader::{Opening, level_at};
use theory_record::Deposit;
use tree_four_ways::Lane;
use tree_place::Place;

// The openings of levels 0 to n: that of the first pair, and that of each value that a pair folds to.
fn level_openings(n: usize, s: &[u8]) -> [Opening; OPENINGS]
    requires { (n ≤ 20) × (4 ≤ length s.now) }
{
    let mut openings = [NO_OPENING; OPENINGS];
    let mut at: usize = 4;
    for l in 0..n {
        let Some(v) = level_at(s, at) else {
            return openings;
        };
        if l == 0 {
            openings[0] = v.a;
        }
        openings[l + 1] = v.c;
        at = v.next;
    }
    openings
}

// Where the next four begin.
fn next_four(e: usize, last: usize) -> usize
    requires { (e ≤ last) × (last ≤ 20) }
    ensures { (e < result) × (result ≤ last + 1) }
{
    if e + 4 <= last {
        return e + 4;
    }
    last + 1
}

// The last level, at most n, whose number has as many digits as e.
fn last_beside(e: usize, n: usize) -> usize
    requires { (e ≤ n) × (n ≤ 20) }
    ensures { (e ≤ result) × (result ≤ n) × (OneDigitCount e result) }
{
    if n < 10 {
        return n;
    }
    if e < 10 {
        return 9;
    }
    n
}

// The lane of the opening of lane j's level in a query record for a position.
fn level_lane(
    deposit: Deposit<'_>,
    position: Place,
    s: &[u8],
    openings: [Opening; OPENINGS],
    e: usize,
    last: usize,
    j: usize,
) -> Option<Lane>
    requires { (InRange (fixed_by deposit) last) × (e ≤ last) × (j < 4) }
    ensures { LaneAt (fixed_by deposit.entry) (levels (index position)) s.now openings (level_in e last j) result }
{
    let l = level_in(e, last, j);
    lane_of(deposit, l, position.folded(l), s, openings[l])
}

// Where the openings of four levels from e on lead to.
fn level_ends(
    deposit: Deposit<'_>,
    position: Place,
    s: &[u8],
    openings: [Opening; OPENINGS],
    e: usize,
    last: usize,
) -> [Option<[u8; 32]>; 4]
    requires { (InRange (fixed_by deposit) last) × (e ≤ last) × (OneDigitCount e last) }
    ensures { EndsAt (fixed_by deposit.entry) (levels (index position)) s.now openings (level_in e last) result }
{
    let mut domains = [0u8; 1024];
    let size = put_domains(&mut domains, deposit.base, e, last);
    let a = level_lane(deposit, position, s, openings, e, last, 0);
    let b = level_lane(deposit, position, s, openings, e, last, 1);
    let c = level_lane(deposit, position, s, openings, e, last, 2);
    let d = level_lane(deposit, position, s, openings, e, last, 3);
    four_ends(deposit.how.mode, &domains, size, s, [a, b, c, d])
}

// What is known after four levels from e on.
fn four_levels(
    deposit: Deposit<'_>,
    position: Place,
    roots: &[u8],
    s: &[u8],
    openings: [Opening; OPENINGS],
    e: usize,
    last: usize,
    known: [Option<Opening>; OPENINGS],
) -> [Option<Opening>; OPENINGS]
    requires { FourLevels (fixed_by deposit) (index position) roots.now s.now e last known }
    ensures { LevelsKnown (fixed_by deposit.entry) (index position) roots.now s.now result }
{
    let ends = level_ends(deposit, position, s, openings, e, last);
    let mut ways = known;
    for j in 0..4 {
        let l = level_in(e, last, j);
        let root = load(roots, 32 * l);
        // a variable first: the borrow checker does not cover a call's result laid straight in a local that holds an array
        let more = settle(ways, openings, l, ends[j], root);
        ways = more;
    }
    ways
}

// Are all openings of four levels from e on known?
fn four_known(ways: [Option<Opening>; OPENINGS], e: usize, last: usize) -> bool
    requires { (e ≤ last) × (last ≤ 20) }
    ensures { result ≡ four_known ways e last }
{
    ways[level_in(e, last, 0)].is_some()
        && ways[level_in(e, last, 1)].is_some()
        && ways[level_in(e, last, 2)].is_some()
        && ways[level_in(e, last, 3)].is_some()
}

// What is known of the openings of levels 0 to n of a query record for a position. After four of which one is not known, none is looked at: the
// check ends there.
pub fn known_levels(
    deposit: Deposit<'_>,
    position: Place,
    roots: &[u8],
    s: &[u8],
) -> [Option<Opening>; OPENINGS]
    requires { LevelsLent (fixed_by deposit) roots.now s.now }
    ensures { LevelsKnown (fixed_by deposit.entry) (index position) roots.now s.now result }
{
    let openings = level_openings(deposit.n, s);
    let mut ways = [None; OPENINGS];
    let mut e: usize = 0;
    // A `while`: four levels at a time, but fewer where the numbers of the next have one digit more.
    while e <= deposit.n {
        let last = last_beside(e, deposit.n);
        // a variable first, as above
        let more = four_levels(deposit, position, roots, s, openings, e, last, ways);
        ways = more;
        if !four_known(ways, e, last) {
            return ways;
        }
        e = next_four(e, last);
    }
    ways
}
