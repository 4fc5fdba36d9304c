// The leaf and node messages of a tree, written into a lent buffer. These are helpers for the crates above: each requires that its bytes fit.
#![tactic(auto)]

ghost use Rattle.std.specs.Prelude.{◌+◌, ◌*◌, ◌≤◌, ◌≡◌, ◌++◌, map, length};
ghost use Rattle.theory_laws.specs.Lists.{flat, le_bytes};
ghost use Rattle.theory_field.specs.Words.{words};
ghost use Rattle.theory_merkle.specs.Message.{prefixed, leaf_prefix, leaf_rest, node_prefix};
ghost use Rattle.bytes_numbers.specs.helpers.Put.{Put};
ghost use Rattle.tree_place.specs.Place.{number};

use bytes_numbers::put_number;
use hash_serialize_parts::part::put_part;
use tree_place::{Group, Shape};

// How many bytes the longest leaf message has: a domain of 255 bytes, 512 values of 16 bytes, and 97 beside.
pub const LEAF_MESSAGE: usize = 8544;

// How many bytes the longest node message has: a domain of 255 bytes, and 136 beside.
pub const NODE_MESSAGE: usize = 391;

// A number as a part: 8 bytes after their length.
fn put_number_part(out: &mut [u8], from: usize, x: u64) -> usize
    requires { from + 16 ≤ length out.old }
    ensures { Put out.old from 16 (prefixed (le_bytes 8 x)) out.new result }
{
    let at = put_number(out, from, 8, 8);
    put_number(out, at, x, 8)
}

// What the leaf messages of a tree have in common.
pub fn leaf_prefix(out: &mut [u8], domain: &[u8], shape: Shape) -> usize
    requires { 73 + length domain.now ≤ length out.old }
    ensures { Put out.old 0 (73 + length domain.now) (leaf_prefix domain.now shape.count shape.width) out.new result }
{
    let a = put_number(out, 0, 5, 8);
    let b = put_part(out, a, b"magnetar/leafN/v1");
    let c = put_part(out, b, domain);
    let d = put_number_part(out, c, shape.count as u64);
    put_number_part(out, d, shape.width as u64)
}

// What the node messages of a level have in common.
pub fn node_prefix(out: &mut [u8], domain: &[u8], level: usize) -> usize
    requires { 56 + length domain.now ≤ length out.old }
    ensures { Put out.old 0 (56 + length domain.now) (node_prefix domain.now level) out.new result }
{
    let a = put_number(out, 0, 5, 8);
    let b = put_part(out, a, b"magnetar/node/v1");
    let c = put_part(out, b, domain);
    put_number_part(out, c, level as u64)
}

// The halves of words, 8 bytes each.
fn put_halves(out: &mut [u8], from: usize, values: &[u64]) -> usize
    requires { from + 8 * length values.now ≤ length out.old }
    ensures { Put out.old from (8 * length values.now) (flat (map (le_bytes 8) values.now)) out.new result }
{
    let mut at = from;
    for x in values {
        at = put_number(out, at, *x, 8);
    }
    at
}

// What a group's leaf message has after the prefix, bare.
pub fn leaf_rest(out: &mut [u8], from: usize, width: usize, group: Group, values: &[u64]) -> usize
    requires { (length values.now ≡ 2 * width) × (from + 24 + 16 * width ≤ length out.old) }
    ensures { Put out.old from (24 + 16 * width) (leaf_rest width (number group) (words values.now)) out.new result }
{
    let g = group.number();
    let a = put_number(out, from, width as u64, 8);
    let b = put_number(out, a, g as u64, 8);
    let c = put_number(out, b, (16 * width) as u64, 8);
    put_halves(out, c, values)
}

// What a node message has after the prefix: two digests, each after its length.
pub fn node_rest(out: &mut [u8], from: usize, left: [u8; 32], right: [u8; 32]) -> usize
    requires { from + 80 ≤ length out.old }
    ensures { Put out.old from 80 (prefixed left ++ prefixed right) out.new result }
{
    let a = put_part(out, from, &left);
    put_part(out, a, &right)
}
