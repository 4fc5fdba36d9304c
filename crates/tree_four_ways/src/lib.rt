// Four ways up at once, under domains of one length: the leaves of four groups whose values stand in one record, and where four digests lead
// to along paths that stand there. These are helpers for the crates above: they require.
#![tactic(auto)]

ghost use Rattle.std.specs.Prelude.{◌≡◌, ℕ, ◌+◌, ◌*◌, ◌/◌, ◌^◌, ◌≤◌, ◌<◌, ◌++◌, length, ltb};
ghost use Rattle.theory_laws.specs.Lists.{part};
ghost use Rattle.theory_laws.specs.Table.{at};
ghost use Rattle.theory_laws.specs.Questions.{pick};
ghost use Rattle.theory_blake3.specs.Digest.{bytes_of_words32};
ghost use Rattle.theory_blake3.specs.Modes.{under};
ghost use Rattle.theory_merkle.specs.Message.{leaf_rest, leaf_message};
ghost use Rattle.theory_merkle.specs.Tree.{leaf_digest};
ghost use Rattle.hash_four_lanes.specs.helpers.Lane.{lane};
ghost use Rattle.bytes_numbers.specs.helpers.Put.{Put};
ghost use Rattle.tree_four_messages.specs.helpers.Strides.{stride, Each};
ghost use Rattle.tree_digest.specs.helpers.Begun.{node_front};
ghost use Rattle.tree_four_ways.specs.helpers.Ways.{node_end, domain_of, digest_of, lane_rest, Settled, Paths, way_up};
ghost use Rattle.tree_four_ways.specs.helpers.Lists.{counts, groups, places, froms, depths};
ghost use Rattle.tree_four_ways.specs.helpers.Ways.{values_in, lane_values, lane_leaf, GroupsThere};

use bytes_numbers::{load, put, put_number};
use bytes_reader::read;
use hash_four_chunks::lane_bytes;
use theory_blake3::Mode;
use tree_four_messages::{STRIDE, digests_from, first_lanes, put_digests};
use tree_message::{leaf_prefix, node_prefix, node_rest};
use tree_place::{Group, Shape};
use tree_walk::children;

// How many bytes the longest prefix of a leaf message has: a domain of 255 bytes, and 73 beside.
const LEAF_PREFIX: usize = 328;

// What a way starts from: how many values its tree has, in groups of how many, the group's number, where its values begin in a record, where the
// path's digests begin, and how many they are.
#[derive(Clone, Copy, Debug, PartialEq, Eq)]
pub struct Lane {
    pub count: usize,
    pub width: usize,
    pub group: usize,
    pub values: usize,
    pub from: usize,
    pub depth: usize,
}

// What a node message has after its front: the level's number, and a digest, by its number on its level, beside its sibling.
fn put_end(out: &mut [u8], to: usize, level: usize, g: usize, d: [u8; 32], other: [u8; 32]) -> usize
    requires { to + 88 ≤ length out.old }
    ensures { Put out.old to 88 (node_end level g d other) out.new result }
{
    let c = children(Group::numbered(g), d, other);
    let a = put_number(out, to, level as u64, 8);
    node_rest(out, a, c.left, c.right)
}

// The same for each of four ways, in the strides of a buffer.
fn put_ends(
    messages: &mut [u8],
    front: usize,
    level: usize,
    lanes: [Lane; 4],
    digests: [u8; 128],
    s: &[u8],
)
    requires { (front + 88 ≤ stride) × (4 * stride ≤ length messages.old) × (level < 32) × ((k : ℕ) → k < 4 → at (froms lanes) k < 2 ^ 62) }
    ensures { Each (front + 88) messages.new
        (λ k. part front (stride * k) messages.old ++ lane_rest level (groups lanes) digests s.now (froms lanes) k) }
{
    for k in 0..4 {
        let way = lanes[k];
        let w = read(s, way.from + 32 * level);
        let d = load(&digests, 32 * k);
        let at = STRIDE * k + front;
        put_end(messages, at, level, way.group >> level, d, w.bytes);
    }
}

// The new digest while a way goes on, the old one after that.
fn chosen(level: usize, depth: usize, new: [u8; 32], old: [u8; 32]) -> [u8; 32]
    ensures { result ≡ pick (ltb level depth) new old }
{
    if level < depth { new } else { old }
}

// The digests of four ways after one more level.
fn settled(digests: [u8; 128], v: &[u32; 32], level: usize, lanes: [Lane; 4]) -> [u8; 128]
    ensures { Settled digests (λ k. bytes_of_words32 (lane 8 v.now k)) level (depths lanes) result }
{
    let mut r = digests;
    for k in 0..4 {
        let new = lane_bytes(v, k);
        let old = load(&digests, 32 * k);
        let d = chosen(level, lanes[k].depth, new, old);
        put(&mut r, 32 * k, &d);
    }
    r
}

// What the node messages of each way begin with, at the front of each stride.
fn put_fronts(messages: &mut [u8], domains: &[u8], size: usize)
    requires { (size ≤ 255) × (1024 ≤ length domains.now) × (4 * stride ≤ length messages.old) }
    ensures { Each (48 + size) messages.new (λ k. node_front (domain_of domains.now size k)) }
{
    let mut front = [0u8; 311];
    for k in 0..4 {
        let from = 256 * k;
        node_prefix(&mut front, &domains[from..from + size], 0);
        put(messages, STRIDE * k, &front[..48 + size]);
    }
}

// Where each of four digests, by its number on its level, and the path that stands from a byte on lead to.
pub fn climb_four(
    mode: Mode,
    domains: &[u8],
    size: usize,
    lanes: [Lane; 4],
    digests: [u8; 128],
    s: &[u8],
    deepest: usize,
) -> [u8; 128]
    requires { (size ≤ 255) × (1024 ≤ length domains.now) × (Paths (froms lanes) (depths lanes) deepest (length s.now)) }
    ensures { (k : ℕ) → k < 4 → digest_of result k
        ≡ way_up (under mode) domains.now size (groups lanes) digests s.now (froms lanes) (depths lanes) k }
{
    let mut messages = [0u8; 4 * STRIDE];
    put_fronts(&mut messages, domains, size);
    let front = 48 + size;
    let blocks = front / 64;
    let h = first_lanes(mode, &messages, front, blocks);
    let mut d = digests;
    for level in 0..deepest {
        put_ends(&mut messages, front, level, lanes, d, s);
        let v = digests_from(mode, h, blocks, &messages, front + 88);
        // a variable first: the borrow checker does not cover a call's result laid straight in a local that holds an array
        let e = settled(d, &v, level, lanes);
        d = e;
    }
    d
}

// What a leaf message has after its prefix, of values that are lent in their bytes.
fn put_leaf_rest(out: &mut [u8], from: usize, width: usize, group: usize, values: &[u8]) -> usize
    requires { (length values.now ≡ 16 * width) × (from + 24 + 16 * width ≤ length out.old) }
    ensures { Put out.old from (24 + 16 * width) (leaf_rest width group (values_in width values.now)) out.new result }
{
    let a = put_number(out, from, width as u64, 8);
    let b = put_number(out, a, group as u64, 8);
    let c = put_number(out, b, (16 * width) as u64, 8);
    put(out, c, values)
}

// The leaf message of a group, of values that are lent in their bytes.
fn put_leaf(
    out: &mut [u8],
    to: usize,
    domain: &[u8],
    shape: Shape,
    group: usize,
    values: &[u8],
) -> usize
    requires { (length domain.now ≤ 255) × (length values.now ≡ 16 * shape.width)
        × (to + (97 + length domain.now + 16 * shape.width) ≤ length out.old) }
    ensures { Put out.old to (97 + length domain.now + 16 * shape.width)
        (leaf_message domain.now shape.count shape.width group (values_in shape.width values.now)) out.new result }
{
    let mut prefix = [0u8; LEAF_PREFIX];
    let n = leaf_prefix(&mut prefix, domain, shape);
    let a = put(out, to, &prefix[..n]);
    put_leaf_rest(out, a, shape.width, group, values)
}

// The leaf messages of four groups whose values stand from four bytes of a record on, at the front of each stride.
fn put_leaves(
    messages: &mut [u8],
    domains: &[u8],
    size: usize,
    width: usize,
    lanes: [Lane; 4],
    s: &[u8],
)
    requires { (size ≤ 255) × (1024 ≤ length domains.now) × (GroupsThere (places lanes) width (length s.now))
        × (4 * stride ≤ length messages.old) }
    ensures { Each (97 + size + 16 * width) messages.new
        (lane_leaf domains.now size (counts lanes) width (groups lanes) s.now (places lanes)) }
{
    for k in 0..4 {
        let domain = 256 * k;
        let way = lanes[k];
        let end = way.values + 16 * width;
        let shape = Shape {
            count: way.count,
            width,
        };
        put_leaf(
            messages,
            STRIDE * k,
            &domains[domain..domain + size],
            shape,
            way.group,
            &s[way.values..end],
        );
    }
}

// The digests of four groups of one width, whose values stand from four bytes of a record on.
pub fn leaves_four(
    mode: Mode,
    domains: &[u8],
    size: usize,
    width: usize,
    lanes: [Lane; 4],
    s: &[u8],
) -> [u8; 128]
    requires { (size ≤ 255) × (1024 ≤ length domains.now) × (GroupsThere (places lanes) width (length s.now)) }
    ensures { (k : ℕ) → k < 4 → digest_of result k
        ≡ leaf_digest (under mode) (domain_of domains.now size k) (at (counts lanes) k) width (at (groups lanes) k)
        (lane_values s.now (places lanes) width k) }
{
    let mut messages = [0u8; 4 * STRIDE];
    put_leaves(&mut messages, domains, size, width, lanes, s);
    let mut r = [0u8; 128];
    put_digests(
        mode,
        &mut r,
        0,
        mode.key,
        0,
        &messages,
        97 + size + 16 * width,
    );
    r
}
