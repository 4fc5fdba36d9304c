// A tree over groups of words, built in a lent buffer, after magnetar-hash. The entry is `build`; the other functions require, and the public
// ones of them are helpers for the crate that makes a tree in parts.
#![tactic(auto)]

ghost use Rattle.std.specs.Prelude.{◌≡◌, ◌+◌, ◌*◌, ◌^◌, ◌≤◌, length};
ghost use Rattle.theory_laws.specs.Lists.{runs, flat};
ghost use Rattle.theory_laws.specs.Refusals.{answered};
ghost use Rattle.theory_blake3.specs.Modes.{under};
ghost use Rattle.theory_merkle.specs.Tree.{levels_from, end_to_end};
ghost use Rattle.theory_merkle.specs.Numbers.{build_number};
ghost use Rattle.tree_by_fours.specs.helpers.Fours.{GroupsFit, first_leaves, first_parents};
ghost use Rattle.tree_build.specs.Built.{built_into};
ghost use Rattle.tree_build.specs.helpers.Put.{LeavesFit, ParentsFit, later_leaves, later_parents};

use bytes_numbers::load;
use theory_laws::Refusal;
use tree_digest::{Hashing, hash_group, hash_node};
use tree_place::{Group, Shape};

// The leaves of some groups of a tree, from group `first` on, at the front of a buffer: those after `done` of them, one by one, each where it
// belongs. Lent are the values of these groups.
fn put_leaves_from(
    hashing: Hashing,
    out: &mut [u8],
    message: &mut [u8],
    shape: Shape,
    first: usize,
    groups: usize,
    done: usize,
    values: &[u64],
)
    requires { LeavesFit (length hashing.domain.now) shape.count shape.width first groups (length values.now) (length out.old) done (length message.old) }
    ensures { out.new
        ≡ later_leaves (under hashing.entry.mode) out.old hashing.entry.domain.now shape.count shape.width first groups done values.now }
{
    let width = shape.width;
    let prefix = tree_message::leaf_prefix(message, hashing.domain, shape);
    for g in done..groups {
        let from = 2 * (width * g);
        let end = from + 2 * width;
        let group = Group::numbered(first + g);
        let d = hash_group(
            hashing.mode,
            message,
            prefix,
            width,
            group,
            &values[from..end],
        );
        bytes_numbers::put(out, 32 * g, &d);
    }
}

// The leaves of some groups of a tree, from group `first` on, at the front of a buffer: by fours where that can be, and what is left one by
// one. Lent are the values of these groups.
pub fn put_leaves(
    hashing: Hashing,
    out: &mut [u8],
    shape: Shape,
    first: usize,
    groups: usize,
    values: &[u64],
)
    requires { GroupsFit (length hashing.domain.now) shape.count shape.width first groups (length values.now) (length out.old) }
    ensures { out.new
        ≡ first_leaves (under hashing.entry.mode) out.old hashing.entry.domain.now shape.count shape.width first values.now groups }
{
    let mut message = [0u8; tree_message::LEAF_MESSAGE];
    let done = tree_by_fours::put_leaves(hashing, out, &mut message, shape, first, groups, values);
    put_leaves_from(
        hashing,
        out,
        &mut message,
        shape,
        first,
        groups,
        done,
        values,
    );
}

// The parents of a level's 2 × half digests, which start at byte from, written right after them: those after `done` parents, one by one.
fn put_parents_from(
    hashing: Hashing,
    tree: &mut [u8],
    message: &mut [u8],
    level: usize,
    from: usize,
    half: usize,
    done: usize,
)
    requires { ParentsFit (length hashing.domain.now) (length tree.old) from half done (length message.old) }
    ensures { tree.new ≡ later_parents (under hashing.entry.mode) tree.old hashing.entry.domain.now level from half done }
{
    let prefix = tree_message::node_prefix(message, hashing.domain, level);
    for j in done..half {
        let src = from + 64 * j;
        let l = load(tree, src);
        let r = load(tree, src + 32);
        let d = hash_node(hashing.mode, message, prefix, l, r);
        bytes_numbers::put(tree, from + 64 * half + 32 * j, &d);
    }
}

// The parents of a level's 2 × half digests, which start at byte from, written right after them: by fours, and what is left one by one.
pub fn put_parents(hashing: Hashing, tree: &mut [u8], level: usize, from: usize, half: usize)
    requires { (length hashing.domain.now ≤ 255) × (from + 96 * half ≤ length tree.old) }
    ensures { tree.new ≡ first_parents (under hashing.entry.mode) tree.old hashing.entry.domain.now level from half half }
{
    let mut message = [0u8; 4096];
    let done = tree_by_fours::put_parents(hashing, tree, &mut message, level, from, half);
    put_parents_from(hashing, tree, &mut message, level, from, half, done);
}

// The levels above the leaves, which stand at the buffer's front: each right after the one below, up to the root.
fn put_levels(hashing: Hashing, tree: &mut [u8], depth: usize, groups: usize)
    requires { (length hashing.domain.now ≤ 255) × (groups ≡ 2 ^ depth) × (length tree.old + 32 ≡ 64 * groups) }
    ensures { tree.new
        ≡ flat (end_to_end (levels_from (under hashing.entry.mode) hashing.entry.domain.now depth 0 (runs 32 groups tree.old))) }
{
    let mut from: usize = 0;
    let mut m = groups;
    for level in 0..depth {
        let half = m / 2;
        put_parents(hashing, tree, level, from, half);
        from += 64 * half;
        m = half;
    }
}

// The tree over the values, leaves first, into a buffer of 2 × groups − 1 digests.
pub fn build(hashing: Hashing, shape: Shape, values: &[u64], tree: &mut [u8]) -> Result<(), Refusal>
    ensures value { answered result
        ≡ build_number (length hashing.entry.domain.now) shape.count shape.width (length values.now) (length tree.old) }
    ensures tree_after { tree.new
        ≡ built_into hashing.entry.mode hashing.entry.domain.now shape.count shape.width values.now tree.old }
{
    shape.build_questions(hashing.domain.len(), values.len(), tree.len())?;
    let groups = shape.groups();
    put_leaves(hashing, tree, shape, 0, groups, values);
    put_levels(hashing, tree, shape.depth(), groups);
    Ok(())
}
