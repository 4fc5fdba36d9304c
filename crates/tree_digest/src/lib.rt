// The digests of groups and of nodes, after magnetar-hash. The entries are `Hashing::leaf_digest` and `Hashing::node_digest`; the other
// functions serve the crates above and require.
#![tactic(auto)]

ghost use Rattle.std.specs.Prelude.{◌≡◌, ◌++◌, ◌+◌, ◌*◌, ◌^◌, ◌≤◌, length};
ghost use Rattle.theory_laws.specs.Lists.{le_bytes};
ghost use Rattle.theory_field.specs.Words.{words};
ghost use Rattle.theory_merkle.specs.Message.{prefixed, leaf_rest};
ghost use Rattle.theory_merkle.specs.Tree.{leaf_digest, node_digest};
ghost use Rattle.theory_blake3.specs.Modes.{under};
ghost use Rattle.hash_hasher.specs.Whole.{digested};
ghost use Rattle.tree_place.specs.Place.{index, number};
ghost use Rattle.tree_digest.specs.Answers.{leaf_answer, node_answer};
ghost use Rattle.tree_digest.specs.helpers.Hashed.{Hashed};
ghost use Rattle.tree_digest.specs.helpers.Begun.{Begun, Front, NodesBegun};

use bytes_numbers::{load, put_number};
use hash_chunk::slice::{chunk_rest, first_blocks};
use hash_hasher::whole::digest_of;
use hash_node::bytes_of;
use theory_blake3::Mode;
use theory_laws::Refusal;
use tree_place::{Group, Place, Shape, group_of, node_questions};

// The digest of a message under a mode.
pub fn digest(mode: Mode, message: &[u8]) -> [u8; 32]
    requires { length message.now ≤ 2 ^ 24 }
    ensures { result ≡ under mode message.now }
{
    digest_of(mode, message)
}

// The same of a message of at most a chunk, whose first blocks have the chaining value h.
fn digest_after(mode: Mode, h: [u32; 8], blocks: usize, message: &[u8]) -> [u8; 32]
    requires { Begun mode h blocks message.now }
    ensures { result ≡ under mode message.now }
{
    let n = chunk_rest(h, blocks, mode.flags, 0, &message[64 * blocks..]);
    bytes_of(n.value(8))
}

// The digest of a group's leaf message, whose prefix stands in the buffer's first bytes and is kept.
pub fn hash_group(
    mode: Mode,
    message: &mut [u8],
    prefix: usize,
    width: usize,
    group: Group,
    values: &[u64],
) -> [u8; 32]
    requires { (length values.now ≡ 2 * width) × (prefix + 24 + 16 * width ≤ length message.old) × (length message.old ≤ 2 ^ 24) }
    ensures { Hashed (under mode) message.old prefix (leaf_rest width (number group) (words values.now))
        message.new result }
{
    let n = tree_message::leaf_rest(message, prefix, width, group, values);
    digest(mode, &message[..n])
}

// The digest of a node message, whose prefix stands in the buffer's first bytes and is kept.
pub fn hash_node(
    mode: Mode,
    message: &mut [u8],
    prefix: usize,
    left: [u8; 32],
    right: [u8; 32],
) -> [u8; 32]
    requires { (prefix + 80 ≤ length message.old) × (length message.old ≤ 2 ^ 24) }
    ensures { Hashed (under mode) message.old prefix (prefixed left ++ prefixed right) message.new result }
{
    let n = tree_message::node_rest(message, prefix, left, right);
    digest(mode, &message[..n])
}

// The digest of a node message of a level, whose front stands in the buffer's first bytes and is kept; h is the chaining value of the
// front's whole blocks.
pub fn hash_level_node(
    mode: Mode,
    h: [u32; 8],
    message: &mut [u8],
    front: usize,
    level: usize,
    left: [u8; 32],
    right: [u8; 32],
) -> [u8; 32]
    requires { Front mode h front message.old }
    ensures { Hashed (under mode) message.old front (le_bytes 8 level ++ (prefixed left ++ prefixed right)) message.new result }
{
    let a = put_number(message, front, level as u64, 8);
    let n = tree_message::node_rest(message, a, left, right);
    digest_after(mode, h, front / 64, &message[..n])
}

// How a tree is hashed: under a mode, and under a domain.
#[derive(Clone, Copy)]
pub struct Hashing<'a> {
    pub mode: Mode,
    pub domain: &'a [u8],
}

impl<'a> Hashing<'a> {
    // The front of the domain's node messages, which those of all levels have in common, put first in a buffer; the chaining value of its
    // whole blocks.
    pub fn begin_nodes(self, message: &mut [u8]) -> [u32; 8]
        requires { (length self.domain.now ≤ 255) × (136 + length self.domain.now ≤ length message.old) }
        ensures { NodesBegun self.entry.mode result self.entry.domain.now message.new }
    {
        let n = tree_message::node_prefix(message, self.domain, 0);
        let front = n - 8;
        first_blocks(self.mode, &message[..front], front / 64)
    }

    // The digest of a group, by its number.
    pub fn leaf_of(self, shape: Shape, group: Group, values: &[u64]) -> [u8; 32]
        requires { (length self.domain.now ≤ 255) × (shape.width ≤ 512) × (length values.now ≡ 2 * shape.width) }
        ensures { result
            ≡ leaf_digest (under self.entry.mode) self.entry.domain.now shape.count shape.width (number group) (words values.now) }
    {
        let mut message = [0u8; tree_message::LEAF_MESSAGE];
        let prefix = tree_message::leaf_prefix(&mut message, self.domain, shape);
        hash_group(self.mode, &mut message, prefix, shape.width, group, values)
    }

    // The digest of a node.
    pub fn node_of(self, level: usize, left: [u8; 32], right: [u8; 32]) -> [u8; 32]
        requires { length self.domain.now ≤ 255 }
        ensures { result ≡ node_digest (under self.entry.mode) self.entry.domain.now level left right }
    {
        let mut message = [0u8; tree_message::NODE_MESSAGE];
        let prefix = tree_message::node_prefix(&mut message, self.domain, level);
        hash_node(self.mode, &mut message, prefix, left, right)
    }

    // The leaf digest of the group of a place.
    pub fn leaf_digest(
        self,
        shape: Shape,
        place: Place,
        values: &[u64],
    ) -> Result<[u8; 32], Refusal>
        ensures { digested result ≡ leaf_answer self.entry.mode self.entry.domain.now shape.count shape.width (index place) values.now }
    {
        shape.leaf_questions(self.domain.len(), place, values.len())?;
        Ok(self.leaf_of(shape, group_of(place, shape.width), values))
    }

    // The node digest of two digests.
    pub fn node_digest(self, level: usize, left: &[u8], right: &[u8]) -> Result<[u8; 32], Refusal>
        ensures { digested result ≡ node_answer self.entry.mode self.entry.domain.now level left.now right.now }
    {
        node_questions(self.domain.len(), left.len(), right.len())?;
        Ok(self.node_of(level, load(left, 0), load(right, 0)))
    }
}
