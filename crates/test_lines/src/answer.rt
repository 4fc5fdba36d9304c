// An answer: its numbers, the list that was lent for writing, then the outputs. An output of at most 64 bytes is printed as it is, words 32 digits each
// and joined by commas, half of one after `h`; of a longer one `#` and the first 16 bytes of its digest; of none `-`.
use crate::request::Lent;
use export_text::{Bytes, Digits};
use field_gf128::Word;
use std::alloc::{AllocError, Global};
use std::fmt;
use theory_laws::Refusal;

// The numbers of an answer.
#[derive(Clone, Copy)]
pub enum Answer {
    One(u64),
    Two(u64, u64),
    Three(u64, u64, u64),
    Four(u64, u64, u64, u64),
    // How often each number from 0 to 33 was the answer: printed as how many calls were refused, of how many, and each number but 0, with how often it was.
    Many([u64; 34]),
}

// The number that answers a call: 0 where it is done.
pub fn number<T>(answered: &Result<T, Refusal>) -> u64 {
    match answered {
        Ok(_) => 0,
        Err(refusal) => u64::from(refusal.number()),
    }
}

impl From<Result<(), Refusal>> for Answer {
    fn from(answered: Result<(), Refusal>) -> Answer {
        Answer::One(number(&answered))
    }
}

impl From<Result<usize, Refusal>> for Answer {
    fn from(answered: Result<usize, Refusal>) -> Answer {
        Answer::Two(number(&answered), answered.unwrap_or(0) as u64)
    }
}

// What a line gets that names no operation, or asks for one on what this program has no room for; no entry answers it.
pub fn no_room() -> Answer {
    Answer::One(99)
}

impl fmt::Display for Answer {
    fn fmt<W: fmt::Write>(&self, f: &mut fmt::Formatter<W>) -> fmt::Result {
        match self {
            Answer::One(a) => write!(f, " {a}"),
            Answer::Two(a, b) => write!(f, " {a} {b}"),
            Answer::Three(a, b, c) => write!(f, " {a} {b} {c}"),
            Answer::Four(a, b, c, d) => write!(f, " {a} {b} {c} {d}"),
            Answer::Many(counts) => {
                let total = counts
                    .iter()
                    .fold(0u64, |sum, times| sum.saturating_add(*times));
                write!(f, " {} {total}", total.saturating_sub(counts[0]))?;
                for (number, times) in counts.iter().enumerate().skip(1) {
                    if *times != 0 {
                        write!(f, " {number} {times}")?;
                    }
                }
                Ok(())
            }
        }
    }
}

// A list of numbers as it is printed.
#[derive(Clone, Copy)]
struct List<'a>(&'a [usize]);

impl<'a> fmt::Display for List<'a> {
    fn fmt<W: fmt::Write>(&self, f: &mut fmt::Formatter<W>) -> fmt::Result {
        if self.0.is_empty() {
            return write!(f, "-");
        }
        for (i, x) in self.0.iter().enumerate() {
            if 0 < i {
                write!(f, ",")?;
            }
            write!(f, "{x}")?;
        }
        Ok(())
    }
}

// An output of bytes as it is printed; none that there is room for is too long for a digest.
#[derive(Clone, Copy)]
struct Output<'a>(&'a [u8]);

impl<'a> fmt::Display for Output<'a> {
    fn fmt<W: fmt::Write>(&self, f: &mut fmt::Formatter<W>) -> fmt::Result {
        match self.0.len() {
            0 => write!(f, "-"),
            1..=64 => write!(f, "{}", Bytes(self.0)),
            _ => match hash_hasher::whole::digest(self.0) {
                Ok(digest) => write!(f, "#{}", Bytes(&digest[..16])),
                Err(refusal) => write!(f, "refused {}", refusal.number()),
            },
        }
    }
}

// At most four words of halves as they are printed.
#[derive(Clone, Copy)]
struct Halves<'a>(&'a [u64]);

impl<'a> fmt::Display for Halves<'a> {
    fn fmt<W: fmt::Write>(&self, f: &mut fmt::Formatter<W>) -> fmt::Result {
        for (i, halves) in self.0.chunks(2).enumerate() {
            if 0 < i {
                write!(f, ",")?;
            }
            match halves {
                [lo, hi] => {
                    let word = Word { lo: *lo, hi: *hi };
                    write!(f, "{}", Digits(word))?;
                }
                [half, ..] => write!(f, "h{half:016x}")?,
                [] => {}
            }
        }
        Ok(())
    }
}

// An output of words, as it is printed.
fn push_words(line: &mut String, alloc: Global, words: &[u64]) -> Result<(), AllocError> {
    if 0 < words.len() && words.len() <= 8 {
        return write!(line, " {}", Halves(words));
    }
    let mut bytes = Vec::new(alloc);
    for half in words {
        bytes.extend_from_slice(&half.to_le_bytes())?;
    }
    write!(line, " {}", Output(bytes.as_slice()))
}

// The line of an answer to the line with a number.
pub fn line(
    alloc: Global,
    number: usize,
    answer: &Answer,
    lent: &Lent,
) -> Result<String, AllocError> {
    let mut line = format!(in alloc; "{number}{answer}")?;
    if let Some(list) = &lent.list {
        write!(&mut line, " {}", List(list.as_slice()))?;
    }
    for words in lent.words.iter() {
        push_words(&mut line, alloc, words.as_slice())?;
    }
    for bytes in lent.bytes.iter() {
        write!(&mut line, " {}", Output(bytes.as_slice()))?;
    }
    Ok(line)
}
