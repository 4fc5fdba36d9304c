// The hasher, fed by repeated calls: its state goes in by value and comes back.
ghost use Rattle.std.specs.Prelude.{◌≡◌, ◌+◌, ◌*◌, ◌≤◌, ◌<◌, length};
ghost use Rattle.theory_blake3.specs.Compression as C;
ghost use Rattle.theory_laws.specs.Refusals.{answered};
ghost use Rattle.hash_hasher.specs.Whole.{digested};
ghost use Rattle.hash_hasher.specs.Hasher as S;
ghost use Rattle.hash_hasher.specs.Hasher.{updated};
ghost use Rattle.hash_hasher.specs.helpers.Counts.{Counts, Ready};

use crate::whole::MOST_BYTES;
use hash_chunk::state::ChunkState;
use hash_compress::iv;
use hash_node::bytes_of;
use hash_stack::Stack;
use theory_blake3::Mode;
use theory_laws::Refusal;

// A hasher's state. A block is compressed, and a chunk is finished, only when a byte follows.
#[derive(Clone, Copy)]
pub struct Hasher {
    // the key words of the mode; its flags are those of the chunk
    pub key: [u32; 8],
    // the unfinished chunk: its number is how many chunks are finished
    pub chunk: ChunkState,
    // the chaining values of the finished chunks
    pub stack: Stack,
    // how many bytes it was fed
    pub len: u64,
}

impl Hasher {
    // A new state under a mode.
    pub fn new_with(mode: Mode) -> Hasher
        ensures { result ≡ S.new_of mode.key mode.flags }
    {
        // a variable first: the borrow checker does not cover an array of another value laid straight in a new one
        let key = mode.key;
        Hasher {
            key,
            chunk: ChunkState::start(mode, 0),
            stack: Stack::new(),
            len: 0,
        }
    }

    // A new state in hash mode.
    pub fn new() -> Hasher
        ensures { result ≡ S.new_of C.iv 0 }
    {
        Hasher::new_with(Mode {
            key: iv(),
            flags: 0,
        })
    }

    // The mode.
    fn mode(&self) -> Mode
        ensures { result ≡ S.mode_of self.now }
    {
        // a variable first, as above
        let key = self.key;
        Mode {
            key,
            flags: self.chunk.flags,
        }
    }

    // Question 13 for a state and a call with n bytes: do the counters agree, and is there room?
    fn questions(&self, n: usize) -> Result<(), Refusal>
        ensures { answered result ≡ S.number_of self.now n }
    {
        let most = MOST_BYTES as u64;
        let chunk = &self.chunk;
        if self.len > most || n as u64 > most - self.len {
            return Err(Refusal::HashedBytes);
        }
        if chunk.blocks > 15 || chunk.fill > 64 || chunk.counter > 16384 {
            return Err(Refusal::HashedBytes);
        }
        if self.len != 1024 * chunk.counter + 64 * chunk.blocks as u64 + chunk.fill as u64 {
            return Err(Refusal::HashedBytes);
        }
        if chunk.fill < self.len.min(1) as usize
            || self.stack.depth != chunk.counter.count_ones() as usize
        {
            return Err(Refusal::HashedBytes);
        }
        Ok(())
    }

    // The chunk is full, and a byte follows: its chaining value goes onto the stack.
    fn next_chunk(&mut self)
        requires { Counts self.old 1 × (64 * self.old.chunk.blocks + self.old.chunk.fill ≡ 1024) }
        ensures { self.new ≡ S.next_chunk self.old }
    {
        let mode = self.mode();
        let n = self.chunk.last();
        let next = self.chunk.counter + 1;
        let count = next.trailing_zeros() as usize;
        self.stack.push(mode, count, n.value(0));
        self.chunk = ChunkState::start(mode, next);
    }

    // The bytes of a slice more: chunk by chunk.
    fn absorb(&mut self, input: &[u8])
        requires { Counts self.old (length input.now) }
        ensures { self.new ≡ S.absorbed self.old input.now }
    {
        let mut i: usize = 0;
        // as many bytes at once as the chunk has room for
        while i < input.len() {
            if 64 * self.chunk.blocks + self.chunk.fill == 1024 {
                self.next_chunk();
            }
            let room = 1024 - (64 * self.chunk.blocks + self.chunk.fill);
            let n = room.min(input.len() - i);
            self.chunk = self.chunk.feed(&input[i..i + n]);
            self.len += n as u64;
            i += n;
        }
    }

    // The state with the bytes of a slice more: 13, and the old state stays, where its counters do not agree or the bytes would be more than 2^24.
    pub fn update(self, input: &[u8]) -> Result<Hasher, Refusal>
        ensures { updated self result ≡ S.update_of self input.now }
    {
        self.questions(input.len())?;
        let mut next = self;
        next.absorb(input);
        Ok(next)
    }

    // The digest of the bytes so far.
    fn finish(&self) -> [u8; 32]
        requires { Ready self.now 0 }
        ensures { result ≡ S.finished self.now }
    {
        let r = self.stack.root(self.mode(), self.chunk.last());
        bytes_of(r.value(8))
    }

    // The digest of all bytes that the state was fed: 13 where its counters do not agree or they are more than 2^24.
    pub fn finalize(&self) -> Result<[u8; 32], Refusal>
        ensures { digested result ≡ S.finalize_of self.now }
    {
        self.questions(0)?;
        Ok(self.finish())
    }
}
