// The digest of a slice in one call: chunk by chunk, with the stack of chaining values, and no hasher. `digest_of` is a helper for the
// crates above and requires; `digest_with` and `digest` ask for themselves.
ghost use Rattle.std.specs.Prelude.{◌≡◌, ◌+◌, ◌*◌, ◌<◌, ◌≤◌, length};
ghost use Rattle.std.specs.Int.Count.{ones};
ghost use Rattle.theory_laws.specs.Lists.{part};
ghost use Rattle.theory_blake3.specs.Chunk.{chunk};
ghost use Rattle.theory_blake3.specs.Digest as B;
ghost use Rattle.hash_four_lanes.specs.helpers.Lane.{Each};
ghost use Rattle.theory_blake3.specs.Compression as C;
ghost use Rattle.hash_hasher.specs.Whole as S;
ghost use Rattle.hash_hasher.specs.Whole.{digested};
ghost use Rattle.hash_hasher.specs.helpers.Walk.{FourPushed};

use hash_chunk::slice::chunk_of;
use hash_compress::iv;
use hash_node::bytes_of;
use hash_stack::Stack;
use theory_blake3::Mode;
use theory_laws::Refusal;

// The most bytes of one message: 2^24.
pub const MOST_BYTES: usize = 16777216;

// The values of four chunks, one in each lane of v, of which the first has the number t, go onto the stack one after another.
fn push_four(mode: Mode, stack: &mut Stack, t: u64, v: &[u32; 32])
    requires { (stack.old.depth ≡ ones t) × (t + 4 < 16384) }
    ensures { FourPushed mode.key mode.flags t v.now stack.old stack.new }
{
    for l in 0..4 {
        let next = t + (l as u64) + 1;
        let count = next.trailing_zeros() as usize;
        stack.push(mode, count, hash_four_lanes::lane(v, l));
    }
}

// The chaining values of the four whole chunks that start at a place of the input, of which the first has the number t.
fn four_chunks(mode: Mode, t: u64, input: &[u8], from: usize) -> [u32; 32]
    requires { (from + 4096 ≤ length input.now) × (t + 4 < 16384) }
    ensures { Each 8 result (λ k. C.cv (chunk mode.key mode.flags (t + k) (part 1024 (from + 1024 * k) input.now) 0)) }
{
    let counters = [t, t + 1, t + 2, t + 3];
    let a = from + 1024;
    let b = from + 2048;
    let c = from + 3072;
    let d = from + 4096;
    hash_four_chunks::chunks(
        mode.key,
        0,
        mode.flags,
        &counters,
        &input[from..a],
        &input[a..b],
        &input[b..c],
        &input[c..d],
        0,
    )
}

// The digest of at most 2^24 bytes, under a mode. A helper, not for export: it requires.
pub fn digest_of(mode: Mode, input: &[u8]) -> [u8; 32]
    requires { length input.now ≤ 16777216 }
    ensures { result ≡ B.digest mode.key mode.flags input.now }
{
    let mut stack = Stack::new();
    let mut from: usize = 0;
    let mut t: u64 = 0;
    // chunks of which a byte follows: the last one, which may be empty or whole, is the root's
    while 4096 < input.len() - from {
        let v = four_chunks(mode, t, input, from);
        push_four(mode, &mut stack, t, &v);
        from += 4096;
        t += 4;
    }
    while 1024 < input.len() - from {
        let end = from + 1024;
        let n = chunk_of(mode, t, &input[from..end]);
        let count = (t + 1).trailing_zeros() as usize;
        stack.push(mode, count, n.value(0));
        from = end;
        t += 1;
    }
    let n = chunk_of(mode, t, &input[from..]);
    let r = stack.root(mode, n);
    bytes_of(r.value(8))
}

// The digest of a slice under a mode: 13 for more than 2^24 bytes.
pub fn digest_with(mode: Mode, input: &[u8]) -> Result<[u8; 32], Refusal>
    ensures { digested result ≡ S.digest_of mode.key mode.flags input.now }
{
    if input.len() > MOST_BYTES {
        return Err(Refusal::HashedBytes);
    }
    Ok(digest_of(mode, input))
}

// The digest of a slice in hash mode: 13 for more than 2^24 bytes.
pub fn digest(input: &[u8]) -> Result<[u8; 32], Refusal>
    ensures { digested result ≡ S.digest_of C.iv 0 input.now }
{
    let key = iv();
    digest_with(Mode { key, flags: 0 }, input)
}
