// The hash: BLAKE3 in one call and by a hasher, in its three modes, and `serialize_parts`.
ghost use Rattle.std.specs.Prelude.{◌<◌};

use hash_chunk::state::ChunkState;
use hash_hasher::hasher::Hasher;
use hash_modes::{context_hasher, keyed_hasher};
use hash_stack::Stack;
use std::alloc::{AllocError, Global};
use test_lines::answer::{Answer, number};
use test_lines::request::{Lent, Request, first};
use test_lines::values::put;
use theory_blake3::Mode;
use theory_laws::Refusal;

// A digest or its refusal as the answer: then its bytes are 0.
pub fn done_or_refused(lent: &mut Lent, digest: Result<[u8; 32], Refusal>) -> Answer {
    let number = number(&digest);
    put(first(&mut lent.bytes), &digest.unwrap_or([0; 32]));
    Answer::One(number)
}

pub fn blake3(request: &Request, lent: &mut Lent) -> Answer {
    done_or_refused(lent, hash_hasher::whole::digest(request.bytes(0)))
}

pub fn keyed_blake3(request: &Request, lent: &mut Lent) -> Answer {
    done_or_refused(
        lent,
        hash_modes::keyed_digest(request.bytes(0), request.bytes(1)),
    )
}

pub fn derive_key(request: &Request, lent: &mut Lent) -> Answer {
    done_or_refused(
        lent,
        hash_modes::derive_key(request.bytes(0), request.bytes(1)),
    )
}

pub fn serialize_parts(
    alloc: Global,
    request: &Request,
    lent: &mut Lent,
) -> Result<Answer, AllocError> {
    let mut lengths = Vec::new(alloc);
    for length in request.list(0) {
        lengths.push(*length as u64)?;
    }
    let out = first(&mut lent.bytes);
    let parts = request.bytes(0);
    Ok(Answer::from(hash_serialize_parts::serialize_parts(parts, lengths.as_slice(), out)))
}

// How many bytes an update takes, by a number.
fn size_at(k: usize) -> usize
    ensures { 0 < result }
{
    match k {
        0 => 1,
        1 => 7,
        2 => 63,
        3 => 64,
        4 => 65,
        5 => 1000,
        6 => 1024,
        _ => 1025,
    }
}

// The digest by a hasher that is fed in pieces: by the size with a number at a time, where step is 0, and by the sizes from there in turn, where
// it is 1.
fn digest_of_pieces(
    mut hasher: Hasher,
    input: &[u8],
    start: usize,
    step: usize,
) -> Result<[u8; 32], Refusal> {
    let mut rest = input;
    let mut k = start % 8;
    // The sizes differ from piece to piece.
    while 0 < rest.len() {
        let (piece, after) = rest.split_at(size_at(k).min(rest.len()));
        hasher = hasher.update(piece).unwrap_or(hasher);
        rest = after;
        k = (k + step % 2) % 8;
    }
    hasher.finalize()
}

pub fn pieces(request: &Request, lent: &mut Lent) -> Answer {
    let [start, step, ..] = request.numbers();
    done_or_refused(
        lent,
        digest_of_pieces(Hasher::new(), request.bytes(0), start, step),
    )
}

// The digest by a hasher of a mode, fed in pieces, and the number that it was started with; where it was refused a hasher with key words 0 is fed.
fn pieces_of(request: &Request, lent: &mut Lent, started: Result<Hasher, Refusal>) -> Answer {
    let [start, step, ..] = request.numbers();
    let number = number(&started);
    let hasher = started.unwrap_or(Hasher::new_with(Mode {
        key: [0; 8],
        flags: 0,
    }));
    done_or_refused(
        lent,
        digest_of_pieces(hasher, request.bytes(1), start, step),
    );
    Answer::One(number)
}

pub fn keyed_pieces(request: &Request, lent: &mut Lent) -> Answer {
    pieces_of(request, lent, keyed_hasher(request.bytes(0)))
}

pub fn derived_pieces(request: &Request, lent: &mut Lent) -> Answer {
    pieces_of(request, lent, context_hasher(request.bytes(0)))
}

// A hasher that is fed an input so many times, as long as it takes it.
fn fed_times(input: &[u8], times: usize) -> Hasher {
    let mut hasher = Hasher::new();
    for _ in 0..times {
        hasher = hasher.update(input).unwrap_or(hasher);
    }
    hasher
}

// The number that a last piece gets, and the digest of the state that is left.
pub fn fed(request: &Request, lent: &mut Lent) -> Answer {
    let [times, ..] = request.numbers();
    let hasher = fed_times(request.bytes(0), times);
    let updated = hasher.update(request.bytes(1));
    done_or_refused(lent, updated.unwrap_or(hasher).finalize());
    Answer::One(number(&updated))
}

// A state with these counters: blocks, fill, chunks, depth and byte count. What else it holds tells its fields apart.
fn state_of(counters: &[usize]) -> Hasher {
    let counter = |i: usize| counters.get(i).copied().unwrap_or(0);
    Hasher {
        key: [1; 8],
        chunk: ChunkState {
            h: [2; 8],
            blocks: counter(0),
            block: [3; 64],
            fill: counter(1),
            counter: counter(2) as u64,
            flags: 0,
        },
        stack: Stack {
            values: [4; 112],
            depth: counter(3),
        },
        len: counter(4) as u64,
    }
}

// Numbers of 32 bits, 8 bytes each.
fn push_wide(out: &mut Vec<u8>, numbers: &[u32]) -> Result<(), AllocError> {
    for x in numbers {
        out.extend_from_slice(&u64::from(*x).to_le_bytes())?;
    }
    Ok(())
}

// Every field of a state, the flags and counters last.
fn state_bytes(alloc: Global, hasher: &Hasher) -> Result<Vec<u8>, AllocError> {
    let mut out = Vec::new(alloc);
    push_wide(&mut out, &hasher.key)?;
    push_wide(&mut out, &hasher.chunk.h)?;
    push_wide(&mut out, &hasher.stack.values)?;
    out.extend_from_slice(&hasher.chunk.block)?;
    let counters = [
        u64::from(hasher.chunk.flags),
        hasher.chunk.blocks as u64,
        hasher.chunk.fill as u64,
        hasher.chunk.counter,
        hasher.stack.depth as u64,
        hasher.len,
    ];
    for x in counters {
        out.extend_from_slice(&x.to_le_bytes())?;
    }
    Ok(out)
}

// What update and finalize answer for a state whose counters are given: both numbers; finalize's digest, and the state that update leaves.
pub fn state(alloc: Global, request: &Request, lent: &mut Lent) -> Result<Answer, AllocError> {
    let given = state_of(request.list(0));
    let updated = given.update(request.bytes(0));
    let left = updated.unwrap_or(given);
    let digest = given.finalize();
    let finalized = number(&digest);
    let mut out = Vec::new(alloc);
    out.extend_from_slice(&digest.unwrap_or([0; 32]))?;
    out.extend_from_slice(state_bytes(alloc, &left)?.as_slice())?;
    put(first(&mut lent.bytes), out.as_slice());
    Ok(Answer::Two(number(&updated), finalized))
}
