// The messages that are hashed on the way from a group of a record to the root, end to end in a lent buffer, the root's last. These are
// helpers for the crates above: each requires that its bytes fit.
#![tactic(auto)]

ghost use Rattle.std.specs.Prelude.{◌≡◌, ◌+◌, ◌*◌, ◌≤◌, length};
ghost use Rattle.tree_place.specs.Place.{index, number};
ghost use Rattle.compare_chain.specs.helpers.Nodes.{LeafNoted, LeafRoom, NodeNoted, NodesRoom, nodes_into, chain_into, ChainRoom};
ghost use Rattle.theory_blake3.specs.Modes.{under};

use bytes_numbers::put;
use bytes_reader::digest_at;
use record_opening::group_values;
use tree_digest::{Hashing, digest};
use tree_message::{leaf_prefix, leaf_rest, node_prefix, node_rest};
use tree_place::{Group, Place, Shape, group_of};
use tree_walk::children;

// The leaf message of the group whose values stand from a byte of a record on; its digest.
fn put_leaf(
    hashing: Hashing,
    out: &mut [u8],
    shape: Shape,
    group: Group,
    s: &[u8],
    from: usize,
) -> [u8; 32]
    requires { LeafRoom (length hashing.domain.now) shape.width (length s.now) from (length out.old) }
    ensures { LeafNoted (under hashing.entry.mode) out.old hashing.entry.domain.now shape.count shape.width (number group) s.now from
        out.new result }
{
    let values = group_values(s, from, shape.width);
    let prefix = leaf_prefix(out, hashing.domain, shape);
    let n = leaf_rest(out, prefix, shape.width, group, &values[..2 * shape.width]);
    digest(hashing.mode, &out[..n])
}

// The node message of a digest, by its number on its level, and its sibling; its digest.
fn put_node(
    hashing: Hashing,
    out: &mut [u8],
    at: usize,
    level: usize,
    g: Group,
    d: [u8; 32],
    sibling: [u8; 32],
) -> [u8; 32]
    requires { (length hashing.domain.now ≤ 255) × (at + (136 + length hashing.domain.now) ≤ length out.old) }
    ensures { NodeNoted (under hashing.entry.mode) out.old at hashing.entry.domain.now level (number g) d sibling out.new result }
{
    let c = children(g, d, sibling);
    let l = c.left;
    let r = c.right;
    let mut message = [0u8; tree_message::NODE_MESSAGE];
    let prefix = node_prefix(&mut message, hashing.domain, level);
    let n = node_rest(&mut message, prefix, l, r);
    put(out, at, &message[..n]);
    digest(hashing.mode, &message[..n])
}

// The node messages on the way of a leaf digest, by its group, along the digests that stand from a byte of a record on.
fn put_nodes(
    hashing: Hashing,
    out: &mut [u8],
    from: usize,
    group: Group,
    leaf: [u8; 32],
    s: &[u8],
    path: usize,
    depth: usize,
)
    requires { NodesRoom (length hashing.domain.now) (length s.now) path depth from (length out.old) }
    ensures { out.new
        ≡ nodes_into (under hashing.entry.mode) out.old from hashing.entry.domain.now (number group) leaf s.now path depth }
{
    let mut at = from;
    let mut d = leaf;
    let mut g = group;
    for l in 0..depth {
        let e = digest_at(s, path + 32 * l);
        // a variable first: the borrow checker does not cover a call's result laid straight in a local that holds an array
        let p = put_node(hashing, out, at, l, g, d, e);
        d = p;
        at += 136 + hashing.domain.len();
        g = g.parent();
    }
}

// The messages from the group of a place, whose values stand from one byte of a record on, along the digests from another.
pub fn put_chain(
    hashing: Hashing,
    out: &mut [u8],
    shape: Shape,
    place: Place,
    s: &[u8],
    from: usize,
    path: usize,
    depth: usize,
)
    requires { ChainRoom (length hashing.domain.now) shape.width (length s.now) from path depth (length out.old) }
    ensures { out.new
        ≡ chain_into (under hashing.entry.mode) out.old hashing.entry.domain.now shape.count shape.width (index place) s.now from path depth }
{
    let g = group_of(place, shape.width);
    let d = put_leaf(hashing, out, shape, g, s, from);
    let nodes = 97 + hashing.domain.len() + 16 * shape.width;
    put_nodes(hashing, out, nodes, g, d, s, path, depth);
}
