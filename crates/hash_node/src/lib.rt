// Blocks and nodes of BLAKE3: the words of bytes, the bytes of words, and a node that is not compressed yet. These are helpers for
// the crates above, and some require: they are not for export.
#![tactic(auto)]

ghost use Rattle.std.specs.Prelude.{◌≡◌, ℕ, ◌+◌, ◌*◌, ◌^◌, ◌<◌, ◌≤◌, length};
ghost use Rattle.theory_laws.specs.Lists.{part, stored, le_value};
ghost use Rattle.theory_blake3.specs.Flags.{start_flag};
ghost use Rattle.theory_blake3.specs.Compression.{cv};
ghost use Rattle.theory_blake3.specs.Chunk.{block};
ghost use Rattle.theory_blake3.specs.Tree as T;
ghost use Rattle.theory_blake3.specs.Digest.{bytes_of_words32};
ghost use Rattle.hash_node.specs.helpers.Node.{out_of};

use hash_compress::compress;
use theory_blake3::Mode;

// The word of the four bytes from a place on.
pub fn word_at(s: &[u8], from: usize) -> u32
    requires { from + 4 ≤ length s.now }
    ensures { result ≡ le_value (part 4 from s.now) }
{
    u32::from_le_bytes(s[from..from + 4].try_into().unwrap())
}

// The words of the whole block that starts at a place.
pub fn words_at(s: &[u8], from: usize) -> [u32; 16]
    requires { from + 64 ≤ length s.now }
    ensures { result ≡ block (part 64 from s.now) }
{
    let mut m = [0u32; 16];
    for i in 0..16 {
        m[i] = word_at(s, from + 4 * i);
    }
    m
}

// A block with n bytes of a slice put in at a place.
pub fn filled(block: [u8; 64], to: usize, input: &[u8], from: usize, n: usize) -> [u8; 64]
    requires { (to + n ≤ 64) × (from + n ≤ length input.now) }
    ensures { result ≡ stored block to (part n from input.now) }
{
    let mut b = block;
    b[to..to + n].copy_from_slice(&input[from..from + n]);
    b
}

// The words of the block that is the n bytes from a place on.
pub fn last_words(s: &[u8], from: usize, n: usize) -> [u32; 16]
    requires { (n ≤ 64) × (from + n ≤ length s.now) }
    ensures { result ≡ block (part n from s.now) }
{
    words_at(&filled([0; 64], 0, s, from, n), 0)
}

// The flag by which a block begins its chunk, after so many blocks.
pub fn start_flag(blocks: usize) -> u32
    ensures { result ≡ start_flag blocks }
{
    if blocks == 0 { 1 } else { 0 }
}

// The bytes of eight words, four each, the lowest first.
pub fn bytes_of(w: [u32; 8]) -> [u8; 32]
    ensures { result ≡ bytes_of_words32 w }
{
    let mut b = [0u8; 32];
    for k in 0..8 {
        b[4 * k..4 * k + 4].copy_from_slice(&w[k].to_le_bytes());
    }
    b
}

// The first eight words of an output.
pub fn first_eight(w: [u32; 16]) -> [u32; 8]
    ensures { result ≡ cv w }
{
    w[..8].try_into().unwrap()
}

// A node that is not compressed yet: one more flag is joined to its flags where it is the root.
#[derive(Clone, Copy)]
pub struct Node {
    pub h: [u32; 8],
    pub m: [u32; 16],
    pub counter: u64,
    pub len: u32,
    pub flags: u32,
}

impl Node {
    // The chaining value of a node, taken with one more flag.
    pub fn value(self, x: u32) -> [u32; 8]
        ensures { result ≡ cv (out_of self x) }
    {
        first_eight(compress(self.h, self.m, self.counter, self.len, self.flags | x))
    }
}

// The block of a parent: two chaining values.
fn pair(l: [u32; 8], r: [u32; 8]) -> [u32; 16]
    ensures { result ≡ T.pair l r }
{
    let mut m = [0u32; 16];
    m[..8].copy_from_slice(&l);
    m[8..].copy_from_slice(&r);
    m
}

// The parent of two chaining values.
pub fn parent(mode: Mode, l: [u32; 8], r: [u32; 8]) -> Node
    ensures { (x : ℕ) → out_of result x ≡ T.parent mode.key mode.flags l r x }
{
    let h = mode.key;
    let m = pair(l, r);
    Node {
        h,
        m,
        counter: 0,
        len: 64,
        flags: mode.flags | 4,
    }
}
