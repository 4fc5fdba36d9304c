// The way between a leaf and the root of a tree: siblings, parents, a path followed up from a leaf, and a path read off a lent tree. These are
// helpers for the crates above: all but `children` require.
#![tactic(auto)]

ghost use Rattle.std.specs.Prelude.{◌≡◌, ◌+◌, ◌*◌, ◌≤◌, ◌<◌, length, drop};
ghost use Rattle.theory_laws.specs.Lists.{runs, flat};
ghost use Rattle.theory_blake3.specs.Modes.{under};
ghost use Rattle.theory_merkle.specs.Tree.{left, right, climb};
ghost use Rattle.bytes_numbers.specs.helpers.Put.{Put};
ghost use Rattle.tree_place.specs.Place.{number};
ghost use Rattle.tree_walk.specs.helpers.Paths.{path_from, PathRoom};

use bytes_numbers::{load, put};
use bytes_reader::digest_at;
use tree_digest::{Hashing, hash_level_node};
use tree_place::Group;

// The digests of two children of one parent.
#[derive(Clone, Copy, Debug, PartialEq, Eq)]
pub struct Siblings {
    pub left: [u8; 32],
    pub right: [u8; 32],
}

// A digest, by its number on its level, and its sibling, by the side on which each stands.
pub fn children(g: Group, d: [u8; 32], other: [u8; 32]) -> Siblings
    ensures { (result.left ≡ left (number g) d other) × (result.right ≡ right (number g) d other) }
{
    if g.is_left() {
        return Siblings {
            left: d,
            right: other,
        };
    }
    Siblings {
        left: other,
        right: d,
    }
}

// Where a leaf digest, by its group, and the digests that stand from a byte on lead to.
pub fn climb_path(
    hashing: Hashing,
    group: Group,
    leaf: [u8; 32],
    s: &[u8],
    from: usize,
    depth: usize,
) -> [u8; 32]
    requires { (length hashing.domain.now ≤ 255) × (from + 32 * depth ≤ length s.now) }
    ensures { result
        ≡ climb (under hashing.entry.mode) hashing.entry.domain.now 0 (number group) leaf (runs 32 depth (drop from s.now)) }
{
    let mut message = [0u8; tree_message::NODE_MESSAGE];
    let h = hashing.begin_nodes(&mut message);
    let front = 48 + hashing.domain.len();
    let mut d = leaf;
    let mut g = group;
    for l in 0..depth {
        let e = digest_at(s, from + 32 * l);
        let c = children(g, d, e);
        d = hash_level_node(hashing.mode, h, &mut message, front, l, c.left, c.right);
        g = g.parent();
    }
    d
}

// The path of a group of 2^depth, put from a byte on and read off their tree, which starts at this byte of the lent trees; where it ends.
pub fn put_path(
    out: &mut [u8],
    to: usize,
    trees: &[u8],
    from: usize,
    depth: usize,
    groups: usize,
    group: Group,
) -> usize
    requires { PathRoom depth groups (number group) from (length trees.now) to (length out.old) }
    ensures { Put out.old to (32 * depth) (flat (path_from depth trees.now from groups (number group))) out.new result }
{
    let mut tree = from;
    let mut m = groups;
    let mut g = group;
    let mut at = to;
    for _level in 0..depth {
        let d = load(trees, tree + 32 * g.sibling().number());
        at = put(out, at, &d);
        tree += 32 * m;
        m /= 2;
        g = g.parent();
    }
    at
}
