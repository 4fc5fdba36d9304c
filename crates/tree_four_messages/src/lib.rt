// Four messages of one length at once. They stand at the fronts of the four strides of a lent buffer, a chunk each, and the whole blocks of
// what they have in common are hashed once. These are helpers for the crates above: each requires that its bytes fit, and nothing is said
// of the buffer's other bytes.
#![tactic(auto)]

ghost use Rattle.std.specs.Prelude.{◌≡◌, ℕ, ◌+◌, ◌*◌, ◌/◌, ◌<◌, ◌≤◌, length};
ghost use Rattle.theory_laws.specs.Lists.{part, flat};
ghost use Rattle.theory_blake3.specs.Digest.{bytes_of_words32};
ghost use Rattle.theory_blake3.specs.Modes.{under};
ghost use Rattle.hash_four_lanes.specs.helpers.Lane as X;
ghost use Rattle.hash_four_lanes.specs.helpers.Lane.{lane};
ghost use Rattle.hash_four_chunks.specs.helpers.FourChunks.{which};
ghost use Rattle.hash_chunk.specs.helpers.Blocks.{first_blocks};
ghost use Rattle.bytes_numbers.specs.helpers.Put.{Put};
ghost use Rattle.tree_place.specs.Place.{number};
ghost use Rattle.tree_four_messages.specs.helpers.Strides.{stride, four, Each, Common, Begun, FourFirst};
ghost use Rattle.tree_four_messages.specs.helpers.Strides.{LeafRoom, LeafRests, NodeRoom, NodeRests};

use bytes_numbers::load;
use hash_chunk::slice::first_blocks;
use hash_node::start_flag;
use theory_blake3::Mode;
use tree_place::Group;

// How many bytes a stride has: those of a chunk.
pub const STRIDE: usize = 1024;

// Where the third and the fourth message stand.
const THIRD: usize = 2 * STRIDE;

const FOURTH: usize = 3 * STRIDE;

// The chaining values of the first blocks of four messages under a mode.
fn first_of(mode: Mode, s0: &[u8], s1: &[u8], s2: &[u8], s3: &[u8], blocks: usize) -> [u32; 32]
    requires { FourFirst blocks (length s0.now) (length s1.now) (length s2.now) (length s3.now) }
    ensures { X.Each 8 result (λ k. first_blocks mode.key mode.flags blocks
        (which s0.now s1.now s2.now s3.now k)) }
{
    let counters = [0u64, 0, 0, 0];
    let mut v = hash_four_chunks::spread(mode.key);
    for i in 0..blocks {
        let m = hash_four_chunks::blocks_at(s0, s1, s2, s3, 64 * i, 64);
        let f = start_flag(i);
        v = hash_four_lanes::compress(&v, &m, &counters, 64, mode.flags | f);
    }
    v
}

// Those of the first blocks of four messages, of which n bytes stand at the fronts of the strides.
pub fn first_lanes(mode: Mode, messages: &[u8], n: usize, blocks: usize) -> [u32; 32]
    requires { (n ≤ stride) × (64 * blocks ≤ n) × (4 * stride ≤ length messages.now) }
    ensures { X.Each 8 result (λ k. first_blocks mode.key mode.flags blocks (part n (stride * k) messages.now)) }
{
    first_of(
        mode,
        &messages[..n],
        &messages[STRIDE..STRIDE + n],
        &messages[THIRD..THIRD + n],
        &messages[FOURTH..FOURTH + n],
        blocks,
    )
}

// The digests under a mode of the four messages of n bytes, whose first blocks have the lanes of h as their chaining values: message k's in lane k.
pub fn digests_from(mode: Mode, h: [u32; 32], blocks: usize, messages: &[u8], n: usize) -> [u32; 32]
    requires { Begun mode (lane 8 h) blocks n messages.now }
    ensures { (k : ℕ) → k < 4 → bytes_of_words32 (lane 8 result k) ≡ under mode (part n (stride * k) messages.now) }
{
    let counters = [0u64, 0, 0, 0];
    let from = 64 * blocks;
    hash_four_chunks::rests(
        h,
        blocks,
        mode.flags,
        &counters,
        &messages[from..n],
        &messages[STRIDE + from..STRIDE + n],
        &messages[THIRD + from..THIRD + n],
        &messages[FOURTH + from..FOURTH + n],
        8,
    )
}

// The same digests, where the first blocks are the same and have the chaining value h.
fn digests_of(mode: Mode, h: [u32; 8], blocks: usize, messages: &[u8], n: usize) -> [u32; 32]
    requires { Common mode h blocks n messages.now }
    ensures { (k : ℕ) → k < 4 → bytes_of_words32 (lane 8 result k) ≡ under mode (part n (stride * k) messages.now) }
{
    let v = hash_four_chunks::spread(h);
    digests_from(mode, v, blocks, messages, n)
}

// The same digests, one after the other in a buffer.
pub fn put_digests(
    mode: Mode,
    out: &mut [u8],
    to: usize,
    h: [u32; 8],
    blocks: usize,
    messages: &[u8],
    n: usize,
) -> usize
    requires { (Common mode h blocks n messages.now) × (to + 128 ≤ length out.old) }
    ensures { Put out.old to 128 (flat (four (λ k. under mode (part n (stride * k) messages.now)))) out.new result }
{
    let v = digests_of(mode, h, blocks, messages, n);
    let a = bytes_numbers::put(out, to, &hash_four_chunks::lane_bytes(&v, 0));
    let b = bytes_numbers::put(out, a, &hash_four_chunks::lane_bytes(&v, 1));
    let c = bytes_numbers::put(out, b, &hash_four_chunks::lane_bytes(&v, 2));
    bytes_numbers::put(out, c, &hash_four_chunks::lane_bytes(&v, 3))
}

// What four messages have in common, at the front of each stride.
fn put_prefixes(messages: &mut [u8], prefix: &[u8])
    requires { (length prefix.now ≤ stride) × (4 * stride ≤ length messages.old) }
    ensures { Each (length prefix.now) messages.new (λ k. prefix.now) }
{
    for k in 0..4 {
        bytes_numbers::put(messages, STRIDE * k, prefix);
    }
}

// Four messages begun: what they have in common at the front of each stride, and the chaining value of its whole blocks.
pub fn begin(mode: Mode, messages: &mut [u8], prefix: &[u8]) -> [u32; 8]
    requires { (length prefix.now ≤ stride) × (4 * stride ≤ length messages.old) }
    ensures each { Each (length prefix.now) messages.new (λ k. prefix.now) }
    ensures value { result ≡ first_blocks mode.key mode.flags (length prefix.now / 64) prefix.now }
{
    put_prefixes(messages, prefix);
    first_blocks(mode, prefix, prefix.len() / 64)
}

// What the leaf messages of four groups, of which the first is given, have after the prefix.
pub fn put_leaf_rests(
    messages: &mut [u8],
    prefix: usize,
    width: usize,
    group: Group,
    values: &[u64],
)
    requires { LeafRoom prefix width (number group) (length values.now) (length messages.old) }
    ensures { LeafRests prefix messages.old width (number group) values.now messages.new }
{
    for k in 0..4 {
        let from = 2 * (width * k);
        let end = from + 2 * width;
        let g = group.after(k);
        tree_message::leaf_rest(messages, STRIDE * k + prefix, width, g, &values[from..end]);
    }
}

// What four node messages have after the prefix: the eight digests from a place on, two by two.
pub fn put_node_rests(messages: &mut [u8], prefix: usize, tree: &[u8], src: usize)
    requires { NodeRoom prefix src (length tree.now) (length messages.old) }
    ensures { NodeRests prefix messages.old tree.now src messages.new }
{
    for k in 0..4 {
        let from = src + 64 * k;
        let l = load(tree, from);
        let r = load(tree, from + 32);
        tree_message::node_rest(messages, STRIDE * k + prefix, l, r);
    }
}
