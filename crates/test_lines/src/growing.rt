// What an argument of a line of text stands for where there are no rooms: all of it, in lists that grow. The pieces are those that `arguments` names; what is
// drawn as words has 16 bytes a word in any list, a number that is none is 0, and of stored bytes there are no more than lines keep.
use crate::arguments::{Digits, digit, word};
use crate::draw;
use field_gf128::Word;
use std::alloc::{AllocError, Global};

// The number of decimal digits; 0 for any other text.
pub fn number(text: &str) -> u64 {
    text.parse::<u64>().unwrap_or(0)
}

// The two numbers that a mark parts.
fn pair(text: &str, mark: char) -> (u64, u64) {
    match text.split_once(mark) {
        Some((first, last)) => (number(first), number(last)),
        None => (number(text), 0),
    }
}

fn push_half(out: &mut Vec<u8>, half: u64) -> Result<(), AllocError> {
    out.extend_from_slice(&half.to_le_bytes())
}

fn push_word(out: &mut Vec<u8>, w: Word) -> Result<(), AllocError> {
    push_half(out, w.lo)?;
    push_half(out, w.hi)
}

// The bytes that digits are, little-endian of a word.
fn push_digits(out: &mut Vec<u8>, kind: Digits, digits: &[u8]) -> Result<(), AllocError> {
    match (kind, digits) {
        (Digits::Bytes, _) => {
            for two in digits.chunks_exact(2) {
                out.push((digit(two[0]) << 4) ^ digit(two[1]))?;
            }
            Ok(())
        }
        (Digits::Words, [b'h', half @ ..]) => push_half(out, word(half).lo),
        (Digits::Words | Digits::Numbers, _) => push_word(out, word(digits)),
    }
}

// The words, or the bytes of another kind, that are drawn from a stream.
fn push_drawn(out: &mut Vec<u8>, drawn: &str) -> Result<(), AllocError> {
    let mut rest = drawn.chars();
    let kind = match rest.next() {
        Some('w') => b'w',
        Some('i') => b'i',
        Some('t') => b't',
        _ => b'b',
    };
    let (stream, count) = pair(rest.as_str(), 'x');
    for i in 0..count {
        if kind == b'w' {
            push_word(out, draw::word(stream, i))?;
        } else {
            out.push(draw::byte(kind, stream, i))?;
        }
    }
    Ok(())
}

// Bytes that earlier lines keep, from a place on: as many as there are.
fn push_kept(out: &mut Vec<u8>, part: &str, kept: &[u8]) -> Result<(), AllocError> {
    let (from, count) = pair(part, '+');
    for b in kept.iter().skip(from as usize).take(count as usize) {
        out.push(*b)?;
    }
    Ok(())
}

// The bytes i modulo 251.
fn push_counted(out: &mut Vec<u8>, count: u64) -> Result<(), AllocError> {
    for i in 0..count {
        out.push((i % 251) as u8)?;
    }
    Ok(())
}

// Digits so many times.
fn push_times(out: &mut Vec<u8>, kind: Digits, piece: &str) -> Result<(), AllocError> {
    let (digits, times) = times(piece);
    for _ in 0..times {
        push_digits(out, kind, digits.as_bytes())?;
    }
    Ok(())
}

// What stands before `x`, and how many times.
fn times(piece: &str) -> (&str, u64) {
    match piece.split_once('x') {
        Some((once, count)) => (once, number(count)),
        None => (piece, 1),
    }
}

fn push_piece(out: &mut Vec<u8>, kind: Digits, piece: &str, kept: &[u8]) -> Result<(), AllocError> {
    let mut rest = piece.chars();
    match rest.next() {
        None | Some('-') => Ok(()),
        Some('~') => push_drawn(out, rest.as_str()),
        Some('@') => push_kept(out, rest.as_str(), kept),
        Some('%') => push_counted(out, number(rest.as_str())),
        Some(_) => push_times(out, kind, piece),
    }
}

// The bytes of an argument.
pub fn bytes(alloc: Global, kind: Digits, text: &str, kept: &[u8]) -> Result<Vec<u8>, AllocError> {
    let mut out = Vec::new(alloc);
    for piece in text.split(',') {
        push_piece(&mut out, kind, piece, kept)?;
    }
    Ok(out)
}

// The halves of the words of an argument, the low one of each first.
pub fn words(alloc: Global, text: &str, kept: &[u8]) -> Result<Vec<u64>, AllocError> {
    let bytes = bytes(alloc, Digits::Words, text, kept)?;
    let mut halves = Vec::new(alloc);
    for half in bytes.chunks_exact(8) {
        let half: [u8; 8] = half.try_into().unwrap_or([0; 8]);
        halves.push(u64::from_le_bytes(half))?;
    }
    Ok(halves)
}

// The numbers of a list.
pub fn numbers(alloc: Global, text: &str) -> Result<Vec<usize>, AllocError> {
    let mut out = Vec::new(alloc);
    for piece in text.split(',').filter(|piece| *piece != "-") {
        let (once, times) = times(piece);
        for _ in 0..times {
            out.push(number(once) as usize)?;
        }
    }
    Ok(out)
}
