// Words in lent bytes, 16 each, little-endian: read and written. These are helpers for the crates above: each requires that its bytes are in
// the slice.
#![tactic(auto)]

ghost use Rattle.std.specs.Prelude.{◌≡◌, ◌+◌, ◌*◌, ◌≤◌, length};
ghost use Rattle.theory_laws.specs.Lists.{part, le_value, le_bytes};
ghost use Rattle.theory_field.specs.Words.{words};
ghost use Rattle.field_gf128.specs.Word.{word};
ghost use Rattle.bytes_numbers.specs.helpers.Put.{Put};
ghost use Rattle.field_bytes.specs.Words.{words_from, word_bytes};

use bytes_numbers::{number_at, put_number};
use field_gf128::Word;

// The word in the 16 bytes from a place on.
pub fn word_at(s: &[u8], from: usize) -> Word
    requires { from + 16 ≤ length s.now }
    ensures { word result ≡ le_value (part 16 from s.now) }
{
    Word {
        lo: number_at(s, from, 8),
        hi: number_at(s, from + 8, 8),
    }
}

// The n words from a place on.
pub fn words_at(s: &[u8], from: usize, n: usize, out: &mut [u64])
    requires { (from + 16 * n ≤ length s.now) × (length out.old ≡ 2 * n) }
    ensures { words out.new ≡ words_from from n s.now }
{
    for v in 0..n {
        let w = word_at(s, from + 16 * v);
        field_words::put(out, v, w);
    }
}

// A word, 16 bytes.
pub fn put_word(out: &mut [u8], from: usize, w: Word) -> usize
    requires { from + 16 ≤ length out.old }
    ensures { Put out.old from 16 (le_bytes 16 (word w)) out.new result }
{
    let at = put_number(out, from, w.lo, 8);
    put_number(out, at, w.hi, 8)
}

// Words of a slice, from one of them on, 16 bytes each.
pub fn put_words(out: &mut [u8], from: usize, values: &[u64], start: usize, count: usize) -> usize
    requires { (2 * (start + count) ≤ length values.now) × (from + 16 * count ≤ length out.old) }
    ensures { Put out.old from (16 * count) (word_bytes (words values.now) start count) out.new result }
{
    let mut at = from;
    for i in 0..count {
        let w = field_words::get(values, start + i);
        at = put_word(out, at, w);
    }
    at
}
