// Chunks of four slices of one length at once, from the key or from the chaining value of whole blocks that they have in common. These
// are helpers for the crates above, and some require: they are not for export.
#![tactic(auto)]

ghost use Rattle.std.specs.Prelude.{◌≡◌, ℕ, ◌+◌, ◌<◌, ◌≤◌, length};
ghost use Rattle.theory_laws.specs.Lists.{part};
ghost use Rattle.theory_blake3.specs.Chunk as B;
ghost use Rattle.theory_blake3.specs.Digest.{bytes_of_words32};
ghost use Rattle.hash_four_lanes.specs.helpers.Lane as X;
ghost use Rattle.hash_four_chunks.specs.helpers.FourChunks.{which, Four, Block, Rests, RestsFrom};

use hash_node::{bytes_of, last_words, start_flag, words_at};

// The same chaining value in each lane.
pub fn spread(h: [u32; 8]) -> [u32; 32]
    ensures { X.Each 8 result (λ _. h) }
{
    let mut s = [0u32; 32];
    for j in 0..32 {
        s[j] = h[j / 4];
    }
    s
}

// The words of the block of n bytes that starts at a place of each slice.
pub fn blocks_at(s0: &[u8], s1: &[u8], s2: &[u8], s3: &[u8], from: usize, n: usize) -> [u32; 64]
    requires { Block from n (length s0.now) (length s1.now) (length s2.now) (length s3.now) }
    ensures { X.Each 16 result (λ k. B.block (part n from (which s0.now s1.now s2.now s3.now k))) }
{
    let mut m = [0u32; 64];
    hash_four_lanes::store(&mut m, 0, block_words(s0, from, n));
    hash_four_lanes::store(&mut m, 1, block_words(s1, from, n));
    hash_four_lanes::store(&mut m, 2, block_words(s2, from, n));
    hash_four_lanes::store(&mut m, 3, block_words(s3, from, n));
    m
}

// The words of the block of n bytes that starts at a place. A whole block is read where it stands.
fn block_words(s: &[u8], from: usize, n: usize) -> [u32; 16]
    requires { (n ≤ 64) × (from + n ≤ length s.now) }
    ensures { result ≡ B.block (part n from s.now) }
{
    if n == 64 {
        return words_at(s, from);
    }
    last_words(s, from, n)
}

// The chaining values of four chunks, each with a counter of its own and one more flag x: ROOT where each is a whole message. The slices
// hold what is left of the chunks after `blocks` blocks, whose chaining values are the lanes of h. Flags alone and no `Mode`: h is no key.
pub fn rests(
    h: [u32; 32],
    blocks: usize,
    flags: u32,
    counters: &[u64; 4],
    s0: &[u8],
    s1: &[u8],
    s2: &[u8],
    s3: &[u8],
    x: u32,
) -> [u32; 32]
    requires { Four blocks s0.now s1.now s2.now s3.now }
    ensures { RestsFrom (X.lane 8 h) blocks flags counters.now
        (which s0.now s1.now s2.now s3.now) x result }
{
    let mut v = h;
    let mut from: usize = 0;
    let mut i: usize = blocks;
    // every block but the last, which may be empty or whole
    while 64 < s0.len() - from {
        let m = blocks_at(s0, s1, s2, s3, from, 64);
        let f = start_flag(i);
        v = hash_four_lanes::compress(&v, &m, counters, 64, flags | f);
        from += 64;
        i += 1;
    }
    let n = s0.len() - from;
    let m = blocks_at(s0, s1, s2, s3, from, n);
    let f = start_flag(i);
    hash_four_lanes::compress(&v, &m, counters, n as u32, flags | (f | 2) | x)
}

// The same, where the blocks that came before are the same for all, and h is their chaining value: flags alone here too.
pub fn chunks(
    h: [u32; 8],
    blocks: usize,
    flags: u32,
    counters: &[u64; 4],
    s0: &[u8],
    s1: &[u8],
    s2: &[u8],
    s3: &[u8],
    x: u32,
) -> [u32; 32]
    requires { Four blocks s0.now s1.now s2.now s3.now }
    ensures { Rests h blocks flags counters.now (which s0.now s1.now s2.now s3.now) x result }
{
    rests(spread(h), blocks, flags, counters, s0, s1, s2, s3, x)
}

// The bytes of a lane's chaining value.
pub fn lane_bytes(v: &[u32; 32], l: usize) -> [u8; 32]
    requires { l < 4 }
    ensures { result ≡ bytes_of_words32 (X.lane 8 v.now l) }
{
    bytes_of(hash_four_lanes::lane(v, l))
}
