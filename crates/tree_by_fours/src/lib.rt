// Four leaves or four nodes of a tree at once. These are helpers for the crates above: they require. `messages` is a buffer to work in, and
// nothing is said of what it holds afterwards.
#![tactic(auto)]

ghost use Rattle.std.specs.Prelude.{◌≡◌, ◌+◌, ◌*◌, ◌/◌, ◌≤◌, length};
ghost use Rattle.tree_by_fours.specs.helpers.Fours.{by_fours, FoursFit, first_leaves, first_parents};
ghost use Rattle.tree_four_messages.specs.helpers.Strides.{stride};
ghost use Rattle.theory_blake3.specs.Modes.{under};

use tree_digest::Hashing;
use tree_four_messages::{begin, put_digests, put_leaf_rests, put_node_rests};
use tree_place::{Group, Shape};

// How many of some messages of one size are hashed by fours: all that make fours, if a message is at most a chunk.
fn by_fours(size: usize, count: usize) -> usize
    ensures { result ≡ by_fours size count }
{
    if size <= tree_four_messages::STRIDE {
        return count / 4 * 4;
    }
    0
}

// The leaves of some groups of a tree, from group `first` on, that are hashed by fours, put at the front of a buffer, and how many they are.
// Lent are the values of these groups.
pub fn put_leaves(
    hashing: Hashing,
    out: &mut [u8],
    messages: &mut [u8],
    shape: Shape,
    first: usize,
    groups: usize,
    values: &[u64],
) -> usize
    requires { FoursFit (length hashing.domain.now) shape.count shape.width first groups (length values.now) (length out.old)
        (length messages.old) }
    ensures value { result ≡ by_fours (97 + length hashing.entry.domain.now + 16 * shape.width) groups }
    ensures out_after { out.new
        ≡ first_leaves (under hashing.entry.mode) out.old hashing.entry.domain.now shape.count shape.width first values.now result }
{
    let width = shape.width;
    let all = by_fours(97 + hashing.domain.len() + 16 * width, groups);
    // A small tree or level has no four: then nothing is begun.
    if all == 0 {
        return 0;
    }
    let mut front = [0u8; 328];
    let prefix = tree_message::leaf_prefix(&mut front, hashing.domain, shape);
    let h = begin(hashing.mode, messages, &front[..prefix]);
    let blocks = prefix / 64;
    let size = prefix + (24 + 16 * width);
    for g in (0..all).step_by(4) {
        let from = 2 * (width * g);
        let end = from + 8 * width;
        let group = Group::numbered(first + g);
        put_leaf_rests(messages, prefix, width, group, &values[from..end]);
        put_digests(hashing.mode, out, 32 * g, h, blocks, messages, size);
    }
    all
}

// The parents that are hashed by fours, of a level's 2 × half digests, which start at byte from, written right after them, and how many they are.
pub fn put_parents(
    hashing: Hashing,
    tree: &mut [u8],
    messages: &mut [u8],
    level: usize,
    from: usize,
    half: usize,
) -> usize
    requires { (length hashing.domain.now ≤ 255) × (from + 96 * half ≤ length tree.old) × (4 * stride ≤ length messages.old) }
    ensures value { result ≡ by_fours (136 + length hashing.entry.domain.now) half }
    ensures tree_after { tree.new ≡ first_parents (under hashing.entry.mode) tree.old hashing.entry.domain.now level from half result }
{
    let all = by_fours(136 + hashing.domain.len(), half);
    // A small tree or level has no four: then nothing is begun.
    if all == 0 {
        return 0;
    }
    let mut front = [0u8; 311];
    let prefix = tree_message::node_prefix(&mut front, hashing.domain, level);
    let h = begin(hashing.mode, messages, &front[..prefix]);
    let blocks = prefix / 64;
    let size = prefix + 80;
    for j in (0..all).step_by(4) {
        put_node_rests(messages, prefix, tree, from + 64 * j);
        put_digests(
            hashing.mode,
            tree,
            from + 64 * half + 32 * j,
            h,
            blocks,
            messages,
            size,
        );
    }
    all
}
