// The root that a group and a path of a record lead to, and the questions put to both. These are helpers for the crates above: each
// requires that what it reads is in the record.
#![tactic(auto)]

ghost use Rattle.std.specs.Prelude.{ℕ, ◌≡◌, true, ◌+◌, ◌*◌, ◌≤◌, ◌<◌, Option, length, take};
ghost use Rattle.theory_laws.specs.Lists.{part, same};
ghost use Rattle.theory_laws.specs.Refusals.{number_of};
ghost use Rattle.theory_field.specs.Words.{words};
ghost use Rattle.theory_merkle.specs.Tree.{leaf_digest};
ghost use Rattle.theory_blake3.specs.Modes.{under};
ghost use Rattle.tree_place.specs.Place.{index, number};
ghost use Rattle.record_opening.specs.helpers.Opening.{values_from, leads_at, root_from, WayThere, Readable, Sized, number_at, AgainThere, KnownThere};
ghost use Rattle.record_opening.specs.helpers.Opening.{fault_number, numbered};
ghost use Rattle.record_opening.specs.helpers.Again.{OldThere, Same};
ghost use Rattle.theory_record.specs.Lent.{fixed_by};
ghost use Rattle.theory_record.specs.Widths.{widest};

use bytes_reader::digest_at;
use code_level::{DOMAIN, WIDEST, level_depth, level_domain, level_length, level_width};
use record_reader::{Opening, count_at, word_at};
use theory_laws::Refusal;
use theory_record::Deposit;
use tree_digest::{Hashing, hash_group};
use tree_message::leaf_prefix;
use tree_place::{Group, Place, Shape, group_of};
use tree_walk::climb_path;

// How many bytes the longest leaf message of a level has: a domain of 255 bytes, WIDEST values of 16 bytes, and 97 beside.
const LEVEL_LEAF: usize = 97 + 255 + 16 * WIDEST;

// The values that stand from a byte of a record on, two halves each.
pub fn group_values(s: &[u8], from: usize, width: usize) -> [u64; 2 * WIDEST]
    requires { (width ≤ widest) × (from + 16 * width ≤ length s.now) }
    ensures { words (take (2 * width) result) ≡ values_from s.now from width }
{
    let mut values = [0u64; 2 * WIDEST];
    for i in 0..width {
        let w = word_at(s, from + 16 * i);
        field_words::put(&mut values, i, w);
    }
    values
}

// The digest of the group whose values stand from a byte of a record on.
pub fn leaf_at(hashing: Hashing, shape: Shape, group: Group, s: &[u8], from: usize) -> [u8; 32]
    requires { (length hashing.domain.now ≤ 255) × (shape.width ≤ widest) × (from + 16 * shape.width ≤ length s.now) }
    ensures { result ≡ leaf_digest (under hashing.entry.mode) hashing.entry.domain.now shape.count shape.width (number group)
        (values_from s.now from shape.width) }
{
    let width = shape.width;
    let values = group_values(s, from, width);
    let mut message = [0u8; LEVEL_LEAF];
    let prefix = leaf_prefix(&mut message, hashing.domain, shape);
    hash_group(
        hashing.mode,
        &mut message,
        prefix,
        width,
        group,
        &values[..2 * width],
    )
}

// The root that the group of a place, whose values stand from one byte of a record on, and the digests from another lead to.
fn root_from(
    hashing: Hashing,
    shape: Shape,
    place: Place,
    s: &[u8],
    from: usize,
    path_from: usize,
    depth: usize,
) -> [u8; 32]
    requires { WayThere (length hashing.domain.now) shape.width (length s.now) from path_from depth }
    ensures { result ≡ root_from (under hashing.entry.mode) hashing.entry.domain.now shape.count shape.width (index place) s.now from
        path_from depth }
{
    let g = group_of(place, shape.width);
    let leaf = leaf_at(hashing, shape, g, s, from);
    climb_path(hashing, g, leaf, s, path_from, depth)
}

// The root that a place of level l and an opening of a record lead to.
pub fn leads_to(deposit: Deposit<'_>, l: usize, place: Place, s: &[u8], at: Opening) -> [u8; 32]
    requires { Sized (fixed_by deposit) l s.now at.group_at at.path_at }
    ensures { result ≡ leads_at (fixed_by deposit.entry) l (index place) s.now at.group_at at.path_at }
{
    let set = deposit.how.set;
    let mut domain = [0u8; DOMAIN];
    let d = level_domain(&mut domain, deposit.base, l);
    let count = level_length(deposit.n, deposit.k, l);
    let width = level_width(set, deposit.n, deposit.k, l);
    let depth = level_depth(set, deposit.n, deposit.k, l);
    let hashing = Hashing {
        mode: deposit.how.mode,
        domain: &domain[..d],
    };
    root_from(
        hashing,
        Shape { count, width },
        place,
        s,
        at.group_at + 4,
        at.path_at + 4,
        depth,
    )
}

// Are two digests the same?
pub fn same_digest(a: [u8; 32], b: [u8; 32]) -> bool
    ensures { result ≡ same a b }
{
    a == b
}

// Why an opening is refused: the first of its three questions whose answer is no. Each is asked of a, of c and of a tail record's group, with
// numbers of its own.
#[derive(Clone, Copy, Debug, PartialEq, Eq)]
pub enum Fault {
    Width,
    Depth,
    Root,
}

impl Fault {
    // 16 to 18: of the group of a and b.
    pub fn of_a(self) -> Refusal
        ensures { number_of result ≡ fault_number 16 self }
    {
        match self {
            Fault::Width => Refusal::WidthOfA,
            Fault::Depth => Refusal::DepthOfA,
            Fault::Root => Refusal::RootOfA,
        }
    }

    // 22 to 24: of the group of c.
    pub fn of_c(self) -> Refusal
        ensures { number_of result ≡ fault_number 22 self }
    {
        match self {
            Fault::Width => Refusal::WidthOfC,
            Fault::Depth => Refusal::DepthOfC,
            Fault::Root => Refusal::RootOfC,
        }
    }

    // 28 to 30: of a group of a tail record.
    pub fn of_tail(self) -> Refusal
        ensures { number_of result ≡ fault_number 28 self }
    {
        match self {
            Fault::Width => Refusal::TailWidth,
            Fault::Depth => Refusal::TailDepth,
            Fault::Root => Refusal::TailRoot,
        }
    }
}

// The three questions put to an opening for a place of level l: a group of the right width, a path length, the root.
pub fn opening_number(
    deposit: Deposit<'_>,
    l: usize,
    place: Place,
    s: &[u8],
    at: Opening,
    root: [u8; 32],
) -> Result<(), Fault>
    requires { Readable (fixed_by deposit) l s.now at.group_at at.path_at }
    ensures { (first : ℕ) → numbered first result ≡ number_at (fixed_by deposit.entry) l (index place) s.now at.group_at at.path_at root first }
{
    let set = deposit.how.set;
    if count_at(s, at.group_at) != level_width(set, deposit.n, deposit.k, l) {
        return Err(Fault::Width);
    }
    if count_at(s, at.path_at) != level_depth(set, deposit.n, deposit.k, l) {
        return Err(Fault::Depth);
    }
    let d = leads_to(deposit, l, place, s, at);
    if !same_digest(d, root) {
        return Err(Fault::Root);
    }
    Ok(())
}

// Stand the same 32 bytes, as often as this, from bytes i and j of a record on?
fn same_items(s: &[u8], i: usize, j: usize, count: usize) -> bool
    requires { (i + 32 * count ≤ length s.now) × (j + 32 * count ≤ length s.now) }
    ensures { result ≡ true → part (32 * count) i s.now ≡ part (32 * count) j s.now }
{
    for t in 0..count {
        let d = digest_at(s, i + 32 * t);
        let e = digest_at(s, j + 32 * t);
        if !same_digest(d, e) {
            return false;
        }
    }
    true
}

// Has an opening the same bytes as another, of this width and depth?
fn same_opening(s: &[u8], at: Opening, old: Opening, width: usize, depth: usize) -> bool
    requires { OldThere s.now at.group_at at.path_at old width depth }
    ensures { result ≡ true → Same s.now at.group_at at.path_at old }
{
    if count_at(s, at.group_at) != width {
        return false;
    }
    if count_at(s, at.path_at) != depth {
        return false;
    }
    if !same_items(s, at.group_at + 4, old.group_at + 4, width / 2) {
        return false;
    }
    same_items(s, at.path_at + 4, old.path_at + 4, depth)
}

// As `opening_number`, for a level of at least two values. A record that was built opens a level twice with the same bytes, for c and for
// the next level's a: what is known to lead to this root is not hashed again.
pub fn opening_again(
    deposit: Deposit<'_>,
    l: usize,
    place: Place,
    s: &[u8],
    at: Opening,
    root: [u8; 32],
    known: Option<Opening>,
) -> Result<(), Fault>
    requires { AgainThere (fixed_by deposit) l (index place) s.now at.group_at at.path_at known root }
    ensures { (first : ℕ) → numbered first result ≡ number_at (fixed_by deposit.entry) l (index place) s.now at.group_at at.path_at root first }
{
    let set = deposit.how.set;
    if let Some(old) = known {
        let w = level_width(set, deposit.n, deposit.k, l);
        let d = level_depth(set, deposit.n, deposit.k, l);
        if same_opening(s, at, old, w, d) {
            return Ok(());
        }
    }
    opening_number(deposit, l, place, s, at, root)
}

// As `opening_number`, for any level: what is known at these very bytes is not hashed.
pub fn opening_known(
    deposit: Deposit<'_>,
    l: usize,
    place: Place,
    s: &[u8],
    at: Opening,
    root: [u8; 32],
    known: Option<Opening>,
) -> Result<(), Fault>
    requires { KnownThere (fixed_by deposit) l (index place) s.now at.group_at at.path_at known root }
    ensures { (first : ℕ) → numbered first result ≡ number_at (fixed_by deposit.entry) l (index place) s.now at.group_at at.path_at root first }
{
    if let Some(old) = known {
        if old == at {
            return Ok(());
        }
    }
    opening_number(deposit, l, place, s, at, root)
}
