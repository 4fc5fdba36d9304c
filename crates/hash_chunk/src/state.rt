// A chunk fed piece by piece, in a state by value that is small enough to keep after a constant prefix and to use again for many
// messages. A message of more than a chunk, 1024 bytes, is not its job: `Fits` requires that there is room. These are helpers for the
// crates above.
ghost use Rattle.std.specs.Prelude.{◌≡◌, ◌++◌, ℕ, ◌+◌, ◌*◌, ◌^◌, ◌≤◌, ◌<◌, length};
ghost use Rattle.theory_laws.specs.Lists.{le_bytes};
ghost use Rattle.hash_node.specs.helpers.Node.{out_of};
ghost use Rattle.hash_chunk.specs.State as S;
ghost use Rattle.hash_chunk.specs.helpers.Room.{Fits};

use bytes_numbers::number_bytes;
use hash_compress::compress;
use hash_node::{Node, bytes_of, filled, first_eight, last_words, start_flag, words_at};
use theory_blake3::Mode;

// The unfinished chunk: a block is compressed only when a byte follows it.
#[derive(Clone, Copy)]
pub struct ChunkState {
    // the chaining value of the blocks that are compressed, and how many they are
    pub h: [u32; 8],
    pub blocks: usize,
    // the block that is not compressed yet, and how many bytes it has
    pub block: [u8; 64],
    pub fill: usize,
    // the chunk's number, and the mode's flags
    pub counter: u64,
    pub flags: u32,
}

impl ChunkState {
    // No byte yet.
    pub fn start(mode: Mode, counter: u64) -> ChunkState
        ensures { result ≡ S.started mode.key mode.flags counter }
    {
        let h = mode.key;
        ChunkState {
            h,
            blocks: 0,
            block: [0; 64],
            fill: 0,
            counter,
            flags: mode.flags,
        }
    }

    // The block is full, and a byte follows.
    fn compressed(self) -> ChunkState
        requires { self.blocks < 16 }
        ensures { result ≡ S.compressed self }
    {
        let m = words_at(&self.block, 0);
        let f = start_flag(self.blocks);
        let h = first_eight(compress(self.h, m, self.counter, 64, self.flags | f));
        ChunkState {
            h,
            blocks: self.blocks + 1,
            fill: 0,
            ..self
        }
    }

    // The bytes of a slice more.
    pub fn feed(self, input: &[u8]) -> ChunkState
        requires { Fits self (length input.now) }
        ensures { result ≡ S.fed self input.now }
    {
        let mut s = self;
        let mut i: usize = 0;
        // as many bytes at once as the block has room for
        while i < input.len() {
            if s.fill == 64 {
                s = s.compressed();
            }
            let to = s.fill;
            let n = (64 - to).min(input.len() - i);
            let b = filled(s.block, to, input, i, n);
            s.block = b;
            s.fill = to + n;
            i += n;
        }
        s
    }

    // A number more, in eight bytes.
    pub fn feed_number(self, x: u64) -> ChunkState
        requires { Fits self 8 }
        ensures { result ≡ S.fed self (le_bytes 8 x) }
    {
        self.feed(&number_bytes(x))
    }

    // A part more, after its length in eight bytes.
    pub fn feed_part(self, bytes: &[u8]) -> ChunkState
        requires { Fits self (8 + length bytes.now) }
        ensures { result ≡ S.fed self (le_bytes 8 (length bytes.now) ++ bytes.now) }
    {
        let t = self.feed_number(bytes.len() as u64);
        t.feed(bytes)
    }

    // A word of 16 bytes more, given by its halves.
    pub fn feed_word(self, lo: u64, hi: u64) -> ChunkState
        requires { Fits self 16 }
        ensures { result ≡ S.fed self (le_bytes 16 (hi * 2 ^ 64 + lo)) }
    {
        let t = self.feed_number(lo);
        t.feed_number(hi)
    }

    // A digest more.
    pub fn feed_digest(self, d: [u8; 32]) -> ChunkState
        requires { Fits self 32 }
        ensures { result ≡ S.fed self d }
    {
        self.feed(&d)
    }

    // The chunk as a node: its last block is left to compress.
    pub fn last(self) -> Node
        requires { self.fill ≤ 64 }
        ensures { (x : ℕ) → out_of result x ≡ S.last_of self x }
    {
        let h = self.h;
        let m = last_words(&self.block, 0, self.fill);
        let f = start_flag(self.blocks);
        Node {
            h,
            m,
            counter: self.counter,
            len: self.fill as u32,
            flags: self.flags | (f | 2),
        }
    }

    // The digest of a message that is this chunk alone.
    pub fn finish(self) -> [u8; 32]
        requires { self.fill ≤ 64 }
        ensures { result ≡ S.finished self }
    {
        let n = self.last();
        bytes_of(n.value(8))
    }
}
