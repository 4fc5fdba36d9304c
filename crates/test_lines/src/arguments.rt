// What an argument of a line stands for. It is pieces, each but the last ended by a comma: hexadecimal digits, `x` and a count after them for as many times;
// `~`, a kind, a stream, `x` and a count for what is drawn; `@`, a place, `+` and a length for stored bytes; `%` and a length for bytes i modulo 251; `-` for
// nothing. In a list of words digits are a word, the highest first, and after `h` half of one; in a list of numbers a number. Every text stands for something,
// and what there is no room for is dropped.
use crate::draw;
use crate::values::part;
use field_gf128::Word;
use std::alloc::{AllocError, Global};

// How many halves of words the inputs of a line have room for.
const ROOM: usize = 16336;

// Where an argument lies: from a place up to another.
#[derive(Clone, Copy)]
pub struct Place {
    pub from: usize,
    pub to: usize,
}

// What the digits of an argument are.
#[derive(Clone, Copy, Debug, PartialEq, Eq)]
pub enum Digits {
    Bytes,
    Words,
    Numbers,
}

impl Digits {
    // How many bytes so many digits are.
    fn size(self, digits: usize) -> usize {
        match self {
            Digits::Bytes => digits / 2,
            Digits::Words => 16,
            Digits::Numbers => 8,
        }
    }
}

// The last two numbers of a text, in decimal digits modulo 2^64; 0 where there is none.
#[derive(Clone, Copy)]
struct Two {
    first: u64,
    last: u64,
}

// Every byte that is no digit ends a number.
fn last_two(text: &[u8]) -> Two {
    let mut found = Two { first: 0, last: 0 };
    for c in text {
        found = match *c {
            b'0'..=b'9' => Two {
                first: found.first,
                last: found
                    .last
                    .wrapping_mul(10)
                    .wrapping_add(u64::from(*c - b'0')),
            },
            _ => Two {
                first: found.last,
                last: 0,
            },
        };
    }
    found
}

// The number that ends a text.
pub fn number(text: &[u8]) -> usize {
    last_two(text).last as usize
}

// The number of a hexadecimal digit; 0 for any other byte.
pub fn digit(c: u8) -> u8 {
    match c {
        b'0'..=b'9' => c - b'0',
        b'a'..=b'f' => c - b'a' + 10,
        _ => 0,
    }
}

// The word of hexadecimal digits, the highest first.
pub fn word(digits: &[u8]) -> Word {
    let mut w = Word { lo: 0, hi: 0 };
    for c in digits {
        w = Word {
            lo: (w.lo << 4) ^ u64::from(digit(*c)),
            hi: (w.hi << 4) ^ (w.lo >> 60),
        };
    }
    w
}

// The byte of the two digits at a place, or of the one that is left there; past them, of the first two.
fn byte_of_digits(digits: &[u8], at: usize) -> u8 {
    let from = if at < digits.len() { at } else { 0 };
    match part(digits, from, from.saturating_add(2)) {
        [high, low] => (digit(*high) << 4) ^ digit(*low),
        [low] => digit(*low),
        _ => 0,
    }
}

// Byte i of a number's 8, little-endian, over and over.
fn byte_of_number(x: u64, i: usize) -> u8 {
    x.to_le_bytes()[i % 8]
}

// Byte i of a word's 16, little-endian, over and over.
fn byte_of_word(w: Word, i: usize) -> u8 {
    byte_of_number(if i % 16 < 8 { w.lo } else { w.hi }, i)
}

// Where the bytes of a piece come from: a stream of words or of bytes of a kind, the stored bytes from a place on, their own places, or digits.
#[derive(Clone, Copy)]
enum Source<'a> {
    DrawnWords(u64),
    Drawn(u8, u64),
    Stored(usize),
    Places,
    Bytes(&'a [u8]),
    Word,
    Number(u64),
}

// What stands before `x`, and whether an `x` follows.
fn before_times(piece: &[u8]) -> (&[u8], bool) {
    match piece.iter().position(|c| *c == b'x') {
        Some(at) => (part(piece, 0, at), true),
        None => (piece, false),
    }
}

// A piece: how many bytes it stands for, and where they come from; and the word that it is, or of which the last byte was that was drawn.
#[derive(Clone, Copy)]
struct Piece<'a> {
    count: usize,
    source: Source<'a>,
    word: Word,
}

impl<'a> Piece<'a> {
    fn read(kind: Digits, text: &'a [u8]) -> Piece<'a> {
        let Two { first, last } = last_two(text);
        let (once, many) = before_times(text);
        let count = match text {
            _ if many => last.wrapping_mul(kind.size(2) as u64) as usize,
            [b'-', ..] => 0,
            [b'h', ..] => 8,
            [b'@' | b'%', ..] => last as usize,
            _ => kind.size(text.len()),
        };
        let source = match (once, kind) {
            ([b'~', b'w', ..], _) => Source::DrawnWords(first),
            ([b'~', rest @ ..], _) => Source::Drawn(rest.first().copied().unwrap_or(0), first),
            ([b'@', ..], _) => Source::Stored(first as usize),
            ([b'%', ..], _) => Source::Places,
            (_, Digits::Bytes) => Source::Bytes(once),
            (_, Digits::Words) => Source::Word,
            (_, Digits::Numbers) => Source::Number(last_two(once).last),
        };
        Piece {
            count,
            source,
            word: word(once),
        }
    }

    // Byte i, of those from 0 on in turn, where these bytes are stored.
    fn byte(&mut self, stored: &[u8], i: usize) -> u8 {
        match self.source {
            Source::DrawnWords(stream) => {
                if i % 16 == 0 {
                    self.word = draw::word(stream, i as u64 / 16);
                }
                byte_of_word(self.word, i)
            }
            Source::Drawn(kind, stream) => draw::byte(kind, stream, i as u64),
            Source::Stored(place) => stored.get(place.wrapping_add(i)).copied().unwrap_or(0),
            Source::Places => (i % 251) as u8,
            Source::Bytes(digits) => byte_of_digits(digits, i.wrapping_mul(2)),
            Source::Word => byte_of_word(self.word, i),
            Source::Number(x) => byte_of_number(x, i),
        }
    }
}

// Puts the bytes of a piece at a place of the stored bytes, as many as there is room for, and answers the next place. It may have bytes that it has just put.
fn put_piece(stored: &mut [u8], from: usize, mut piece: Piece) -> usize {
    let end = from.saturating_add(piece.count).min(stored.len());
    for at in from..end {
        let byte = piece.byte(stored, at - from);
        if let Some(place) = stored.get_mut(at) {
            *place = byte;
        }
    }
    end
}

// Puts the bytes of an argument at a place of the stored bytes, as many as there is room for, and answers the next place.
pub fn put_bytes(stored: &mut [u8], from: usize, text: &[u8]) -> usize {
    let mut at = from;
    for piece in text.split_inclusive(|c| *c == b',') {
        let piece = piece.strip_suffix(b",").unwrap_or(piece);
        at = put_piece(stored, at, Piece::read(Digits::Bytes, piece));
    }
    at
}

// Halves of words, those of one argument after those of another, as many as there is room for; and where the last one ends, by bytes.
#[derive(Clone, Drop)]
pub struct Halves {
    items: Vec<u64>,
    end: usize,
}

impl Halves {
    pub fn new(alloc: Global) -> Halves {
        Halves {
            items: Vec::new(alloc),
            end: 0,
        }
    }

    // The halves at a place.
    pub fn at(&self, place: Place) -> &[u64] {
        part(self.items.as_slice(), place.from, place.to)
    }

    // Puts the bytes of a piece, little-endian. A half of which an argument has a part only goes on with the next one.
    fn put_piece(&mut self, mut piece: Piece, stored: &[u8]) -> Result<(), AllocError> {
        let from = self.end;
        self.end = from.saturating_add(piece.count);
        self.items.resize(self.end.div_ceil(8).min(ROOM), 0)?;
        for at in from..self.end.min(8 * ROOM) {
            let byte = piece.byte(stored, at - from);
            if let Some(half) = self.items.get_mut(at / 8) {
                *half ^= u64::from(byte) << (8 * (at % 8));
            }
        }
        Ok(())
    }

    // Puts halves behind those that there are, all of them, and answers their place.
    pub fn push(&mut self, halves: &[u64]) -> Result<Place, AllocError> {
        let from = self.items.len();
        self.items.extend_from_slice(halves)?;
        let to = self.items.len();
        self.end = to.saturating_mul(8);
        Ok(Place { from, to })
    }

    // Puts what an argument stands for, and answers its place: the whole halves that it ends.
    pub fn put(&mut self, kind: Digits, text: &[u8], stored: &[u8]) -> Result<Place, AllocError> {
        let from = self.end;
        for piece in text.split_inclusive(|c| *c == b',') {
            let piece = piece.strip_suffix(b",").unwrap_or(piece);
            self.put_piece(Piece::read(kind, piece), stored)?;
        }
        Ok(Place {
            from: from / 8,
            to: self.end / 8,
        })
    }
}
