// A chunk over a slice that holds all of it, or what is left of it after its first blocks. These are helpers for the crates above: they
// require that the chunk is no longer than 1024 bytes.
ghost use Rattle.std.specs.Prelude.{◌≡◌, ℕ, ◌+◌, ◌*◌, ◌-◌, ◌≤◌, length};
ghost use Rattle.theory_blake3.specs.Flags.{start_flag};
ghost use Rattle.theory_blake3.specs.Chunk as B;
ghost use Rattle.hash_node.specs.helpers.Node.{out_of};
ghost use Rattle.hash_chunk.specs.helpers.Blocks.{first_blocks};

use hash_compress::compress;
use hash_node::{Node, first_eight, last_words, start_flag, words_at};
use theory_blake3::Mode;

// The chaining value of the first blocks of a message of at most a chunk, under a mode.
pub fn first_blocks(mode: Mode, message: &[u8], blocks: usize) -> [u32; 8]
    requires { 64 * blocks ≤ length message.now }
    ensures { result ≡ first_blocks mode.key mode.flags blocks message.now }
{
    let mut h = mode.key;
    for i in 0..blocks {
        let m = words_at(message, 64 * i);
        let f = start_flag(i);
        h = first_eight(compress(h, m, 0, 64, mode.flags | f));
    }
    h
}

// The chunk with the number t, as a node: its last block is left to compress. The slice holds what is left of it after `blocks` blocks,
// whose chaining value is given.
pub fn chunk_rest(after: [u32; 8], blocks: usize, flags: u32, t: u64, input: &[u8]) -> Node
    requires { 64 * blocks + length input.now ≤ 1024 }
    ensures { (x : ℕ) → out_of result x ≡ B.chunk_from flags (15 - blocks) after (start_flag blocks) t input.now x }
{
    let mut h = after;
    let mut from: usize = 0;
    let mut i: usize = blocks;
    // every block but the last, which may be empty or whole
    while 64 < input.len() - from {
        let m = words_at(input, from);
        let f = start_flag(i);
        h = first_eight(compress(h, m, t, 64, flags | f));
        from += 64;
        i += 1;
    }
    let n = input.len() - from;
    let m = last_words(input, from, n);
    let f = start_flag(i);
    Node {
        h,
        m,
        counter: t,
        len: n as u32,
        flags: flags | (f | 2),
    }
}

// The same of a slice that holds all of it.
pub fn chunk_of(mode: Mode, t: u64, input: &[u8]) -> Node
    requires { length input.now ≤ 1024 }
    ensures { (x : ℕ) → out_of result x ≡ B.chunk mode.key mode.flags t input.now x }
{
    chunk_rest(mode.key, 0, mode.flags, t, input)
}
