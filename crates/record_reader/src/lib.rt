// Record bytes, read from front to back: counts, words, digests, counted runs, and the levels and groups of records, all of them through
// `bytes_reader::read`. Bytes may be anything, and a count whatever an enemy wrote. Helpers for the crates above: some require.
#![tactic(auto)]

ghost use Rattle.std.specs.Prelude.{◌≡◌, ◌≤◌, ◌<◌, length, drop};
ghost use Rattle.theory_laws.specs.Lists.{part, le_value};
ghost use Rattle.field_gf128.specs.Word.{word};
ghost use Rattle.theory_record.specs.Format.{run_count, record_whole, level_form, tail_form};
ghost use Rattle.record_reader.specs.helpers.Places.{run_at, level_at, group_at};

use bytes_numbers::number_at;
use bytes_reader::read;
use field_gf128::Word;

// A counted run that is all there: its count, and where what follows it begins.
#[derive(Clone, Copy, Debug, PartialEq, Eq)]
pub struct Run {
    pub count: usize,
    pub next: usize,
}

// A group of values and its path, by the bytes of a record at which they begin.
#[derive(Clone, Copy, Debug, PartialEq, Eq)]
pub struct Opening {
    pub group_at: usize,
    pub path_at: usize,
}

// A level of a query record that is all there: the openings of a and b, and of c, and where what follows the level begins.
#[derive(Clone, Copy, Debug, PartialEq, Eq)]
pub struct Level {
    pub a: Opening,
    pub c: Opening,
    pub next: usize,
}

// A group of a tail record that is all there, with its path, and where what follows both begins.
#[derive(Clone, Copy, Debug, PartialEq, Eq)]
pub struct TailGroup {
    pub opening: Opening,
    pub next: usize,
}

// The count at a byte of a record.
pub fn count_at(s: &[u8], at: usize) -> usize
    ensures { (result ≡ run_count (drop at s.now)) × (result < 4294967296) }
{
    let w = read(s, at);
    number_at(&w.bytes, 0, 4) as usize
}

// The word at a byte of a record.
pub fn word_at(s: &[u8], at: usize) -> Word
    ensures { word result ≡ le_value (part 16 at s.now) }
{
    let w = read(s, at);
    field_bytes::word_at(&w.bytes, 0)
}

// The run of items of this size at a byte of a record, if all of it is there.
pub fn run_at(s: &[u8], at: usize, size: usize) -> Option<Run>
    requires { (at ≤ length s.now) × (size ≤ 32) }
    ensures { result ≡ run_at size s.now at }
{
    let left = s.len() - at;
    if left < 4 {
        return None;
    }
    let count = count_at(s, at);
    if left < 4 + size * count {
        return None;
    }
    Some(Run {
        count,
        next: at + (4 + size * count),
    })
}

// The level of a query record that begins at a byte, if all of it is there.
pub fn level_at(s: &[u8], at: usize) -> Option<Level>
    requires { at ≤ length s.now }
    ensures { result ≡ level_at s.now at }
{
    if s.len() - at < 48 {
        return None;
    }
    let from = at + 48;
    let a = run_at(s, from, 16)?;
    let c = run_at(s, a.next, 16)?;
    let p = run_at(s, c.next, 32)?;
    let q = run_at(s, p.next, 32)?;
    Some(Level {
        a: Opening {
            group_at: from,
            path_at: c.next,
        },
        c: Opening {
            group_at: a.next,
            path_at: p.next,
        },
        next: q.next,
    })
}

// The group of a tail record that begins at a byte, if all of it is there.
pub fn group_at(s: &[u8], at: usize) -> Option<TailGroup>
    requires { at ≤ length s.now }
    ensures { result ≡ group_at s.now at }
{
    let v = run_at(s, at, 16)?;
    let p = run_at(s, v.next, 32)?;
    Some(TailGroup {
        opening: Opening {
            group_at: at,
            path_at: v.next,
        },
        next: p.next,
    })
}

// Does a query record read whole, nothing after it? (Question 14.)
pub fn query_whole(s: &[u8]) -> bool
    ensures { result ≡ record_whole level_form s.now }
{
    if s.len() < 4 {
        return false;
    }
    let n = count_at(s, 0);
    let mut at: usize = 4;
    for _l in 0..n {
        let Some(v) = level_at(s, at) else {
            return false;
        };
        at = v.next;
    }
    at == s.len()
}

// Does a tail record read whole, nothing after it? (Question 14.) A function of its own: one for both over a closure is longer, since it needs a
// contract over every form of items, and one for each closure.
pub fn tail_whole(s: &[u8]) -> bool
    ensures { result ≡ record_whole tail_form s.now }
{
    if s.len() < 4 {
        return false;
    }
    let n = count_at(s, 0);
    let mut at: usize = 4;
    for _g in 0..n {
        let Some(v) = group_at(s, at) else {
            return false;
        };
        at = v.next;
    }
    at == s.len()
}
