// The first pass of a check: openings of a record that are known to lead to their roots, found four at a time. What is known is so; of what is
// not known nothing is said, and the check asks its questions as if there had been no first pass. These are helpers for the crates above: they
// require.
#![tactic(auto)]

pub mod groups;
pub mod levels;

ghost use Rattle.std.specs.Prelude.{◌≡◌, true, ◌≤◌, ◌<◌, length};
ghost use Rattle.theory_blake3.specs.Modes.{under};
ghost use Rattle.theory_record.specs.Lent.{fixed_by};
ghost use Rattle.tree_place.specs.Place.{index};
ghost use Rattle.record_opening.specs.helpers.Opening.{Sized};
ghost use Rattle.record_known.specs.helpers.Domains.{level_in, domain_size, DomainsFit, DomainsStand};
ghost use Rattle.tree_four_ways.specs.helpers.Ways.{digest_of};
ghost use Rattle.record_known.specs.helpers.Lanes.{InRange, farthest, RunSized, or_nowhere, LaneThere, LaneOf, MaybeLaneOf};
ghost use Rattle.record_known.specs.helpers.Lanes.{leaf_in, OneWidth, FourThere, AllThere, FourDigests, FourLeaves, FourClimbed, FourEnds, end_read};
ghost use Rattle.record_known.specs.helpers.Known.{opened_by, settled};

use bytes_numbers::{load, put};
use code_level::{DOMAIN, level_depth, level_domain, level_length, level_width};
use record_opening::{leaf_at, same_digest};
use record_reader::{Opening, run_at};
use theory_blake3::Mode;
use theory_record::Deposit;
use tree_digest::Hashing;
use tree_four_ways::{Lane, climb_four, leaves_four};
use tree_place::{Group, Place, Shape, group_of};

// How many openings a first pass has room for: those of levels 0 to 20.
pub const OPENINGS: usize = 21;

// The level of lane k, of four from e on: past the last it is the last again.
pub fn level_in(e: usize, last: usize, k: usize) -> usize
    requires { (e ≤ last) × (last < 100) × (k < 4) }
    ensures { (result ≡ level_in e last k) × (result ≤ last) }
{
    if e + k <= last {
        return e + k;
    }
    last
}

// How many bytes the domain of level e has, over a base domain of as many.
fn domain_size(base: usize, e: usize) -> usize
    requires { base ≤ 200 }
    ensures { result ≡ domain_size base e }
{
    if e < 10 {
        return base + 8;
    }
    base + 9
}

// The domains of these four levels, whose numbers have as many digits, in strides of 256 bytes; how many bytes each has.
pub fn put_domains(out: &mut [u8], base: &[u8], e: usize, last: usize) -> usize
    requires { DomainsFit base.now e last (length out.old) }
    ensures { DomainsStand base.now e last result out.new }
{
    let size = domain_size(base.len(), e);
    let mut domain = [0u8; DOMAIN];
    for k in 0..4 {
        let l = level_in(e, last, k);
        level_domain(&mut domain, base, l);
        put(out, 256 * k, &domain[..size]);
    }
    size
}

// 2^60: no record has so many bytes, and a place up to it can be counted on from.
const FARTHEST: usize = 1152921504606846976;

// Is the run of items of this size that begins at a byte of a record all there, and are there as many items?
fn has_run(s: &[u8], at: usize, size: usize, count: usize) -> bool
    requires { size ≤ 32 }
    ensures { result ≡ true → RunSized size s.now at count }
{
    if FARTHEST < at {
        return false;
    }
    if s.len() < at {
        return false;
    }
    let Some(v) = run_at(s, at, size) else {
        return false;
    };
    v.count == count
}

// What a lane that is not sized stands for among four: it goes nowhere.
const NOWHERE: Lane = Lane {
    count: 0,
    width: 0,
    group: 0,
    values: 0,
    from: 0,
    depth: 0,
};

// The lane of an opening of a record that is sized, for a place of level l.
fn sized_lane(deposit: Deposit<'_>, l: usize, place: Place, s: &[u8], at: Opening) -> Lane
    requires { (Sized (fixed_by deposit) l s.now at.group_at at.path_at) × (at.path_at ≤ farthest) }
    ensures { LaneOf (fixed_by deposit.entry) l (index place) s.now at.group_at at.path_at result }
{
    let set = deposit.how.set;
    let width = level_width(set, deposit.n, deposit.k, l);
    let g = group_of(place, width);
    Lane {
        count: level_length(deposit.n, deposit.k, l),
        width,
        group: g.number(),
        values: at.group_at + 4,
        from: at.path_at + 4,
        depth: level_depth(set, deposit.n, deposit.k, l),
    }
}

// The same where it is not known whether it is sized.
pub fn lane_of(deposit: Deposit<'_>, l: usize, place: Place, s: &[u8], at: Opening) -> Option<Lane>
    requires { InRange (fixed_by deposit) l }
    ensures { MaybeLaneOf (fixed_by deposit.entry) l (index place) s.now at.group_at at.path_at result }
{
    let set = deposit.how.set;
    if !has_run(
        s,
        at.group_at,
        16,
        level_width(set, deposit.n, deposit.k, l),
    ) {
        return None;
    }
    if !has_run(s, at.path_at, 32, level_depth(set, deposit.n, deposit.k, l)) {
        return None;
    }
    Some(sized_lane(deposit, l, place, s, at))
}

// The larger of two depths.
fn larger(a: usize, b: usize) -> usize
    requires { (a ≤ 24) × (b ≤ 24) }
    ensures { (a ≤ result) × (b ≤ result) × (result ≤ 24) }
{
    a.max(b)
}

// Four digests one after the other.
fn end_to_end(a: [u8; 32], b: [u8; 32], c: [u8; 32], d: [u8; 32]) -> [u8; 128]
    ensures { FourDigests a b c d result }
{
    let mut r = [0u8; 128];
    put(&mut r, 0, &a);
    put(&mut r, 32, &b);
    put(&mut r, 64, &c);
    put(&mut r, 96, &d);
    r
}

// Do four lanes go somewhere, and are their groups of one width?
fn one_width(lanes: [Lane; 4], there: [bool; 4]) -> bool
    ensures { result ≡ true → OneWidth lanes }
{
    there[0]
        && there[1]
        && there[2]
        && there[3]
        && lanes[1].width == lanes[0].width
        && lanes[2].width == lanes[0].width
        && lanes[3].width == lanes[0].width
}

// The digest of a lane's group, where the lane goes somewhere.
fn lane_leaf(mode: Mode, domain: &[u8], s: &[u8], lane: Lane, there: bool) -> [u8; 32]
    requires { (length domain.now ≤ 255) × (LaneThere (length s.now) lane) }
    ensures { there ≡ true → result ≡ leaf_in (under mode) domain.now s.now lane }
{
    if !there {
        return [0u8; 32];
    }
    let group = Group::numbered(lane.group);
    let hashing = Hashing { mode, domain };
    let shape = Shape {
        count: lane.count,
        width: lane.width,
    };
    leaf_at(hashing, shape, group, s, lane.values)
}

// The digests of four lanes' groups: at once where they are of one width.
fn four_leaves(
    mode: Mode,
    domains: &[u8],
    size: usize,
    s: &[u8],
    lanes: [Lane; 4],
    there: [bool; 4],
) -> [u8; 128]
    requires { (size ≤ 255) × (1024 ≤ length domains.now) × (FourThere (length s.now) lanes) }
    ensures { FourLeaves (under mode) domains.now size s.now lanes there result }
{
    let a = lanes[0];
    let b = lanes[1];
    let c = lanes[2];
    let d = lanes[3];
    if one_width(lanes, there) {
        return leaves_four(mode, domains, size, a.width, lanes, s);
    }
    let i = lane_leaf(mode, &domains[0..size], s, a, there[0]);
    let j = lane_leaf(mode, &domains[256..256 + size], s, b, there[1]);
    let l = lane_leaf(mode, &domains[512..512 + size], s, c, there[2]);
    let m = lane_leaf(mode, &domains[768..768 + size], s, d, there[3]);
    end_to_end(i, j, l, m)
}

// Where four lanes lead to, under the domains that stand in strides of 256 bytes.
fn climb_lanes(
    mode: Mode,
    domains: &[u8],
    size: usize,
    s: &[u8],
    lanes: [Lane; 4],
    there: [bool; 4],
) -> [u8; 128]
    requires { (size ≤ 255) × (1024 ≤ length domains.now) × (FourThere (length s.now) lanes) }
    ensures { FourClimbed (under mode) domains.now size s.now lanes there result }
{
    let leaves = four_leaves(mode, domains, size, s, lanes, there);
    let a = lanes[0];
    let b = lanes[1];
    let c = lanes[2];
    let d = lanes[3];
    let deepest = larger(larger(a.depth, b.depth), larger(c.depth, d.depth));
    climb_four(mode, domains, size, lanes, leaves, s, deepest)
}

// A lane, or one that goes nowhere.
fn or_nowhere(lane: Option<Lane>) -> Lane
    ensures { result ≡ or_nowhere lane }
{
    match lane {
        Some(lane) => lane,
        None => NOWHERE,
    }
}

// Where a lane led to, if there is one: its digest is number j of four.
fn end_in(lane: Option<Lane>, digests: [u8; 128], j: usize) -> Option<[u8; 32]>
    requires { j < 4 }
    ensures { result ≡ end_read lane (digest_of digests j) }
{
    lane?;
    Some(load(&digests, 32 * j))
}

// Where four openings lead to that have a lane.
pub fn four_ends(
    mode: Mode,
    domains: &[u8],
    size: usize,
    s: &[u8],
    lanes: [Option<Lane>; 4],
) -> [Option<[u8; 32]>; 4]
    requires { (size ≤ 255) × (1024 ≤ length domains.now) × (AllThere (length s.now) lanes) }
    ensures { FourEnds (under mode) domains.now size s.now lanes result }
{
    let a = or_nowhere(lanes[0]);
    let b = or_nowhere(lanes[1]);
    let c = or_nowhere(lanes[2]);
    let d = or_nowhere(lanes[3]);
    let there = [
        lanes[0].is_some(),
        lanes[1].is_some(),
        lanes[2].is_some(),
        lanes[3].is_some(),
    ];
    let digests = climb_lanes(mode, domains, size, s, [a, b, c, d], there);
    let first = end_in(lanes[0], digests, 0);
    let second = end_in(lanes[1], digests, 1);
    let third = end_in(lanes[2], digests, 2);
    let fourth = end_in(lanes[3], digests, 3);
    [first, second, third, fourth]
}

// An opening, where it is known: where it has a lane, which led to the root.
fn opened(at: Opening, end: Option<[u8; 32]>, root: [u8; 32]) -> Option<Opening>
    ensures { result ≡ opened_by at end root }
{
    let end = end?;
    if same_digest(end, root) {
        return Some(at);
    }
    None
}

// What is known once it is known where opening i leads to.
pub fn settle(
    ways: [Option<Opening>; OPENINGS],
    openings: [Opening; OPENINGS],
    i: usize,
    end: Option<[u8; 32]>,
    root: [u8; 32],
) -> [Option<Opening>; OPENINGS]
    requires { i < 21 }
    ensures { result ≡ settled ways openings i end root }
{
    let mut r = ways;
    r[i] = opened(openings[i], end, root);
    r
}

// No opening: what a list of them holds before any is found.
pub const NO_OPENING: Opening = Opening {
    group_at: 0,
    path_at: 0,
};
