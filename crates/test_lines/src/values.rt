// Values from lists and into outputs: what a list has not is 0, and what an output has no room for is dropped.
use field_gf128::Word;
use std::array;

// As much of a list as lies between two places.
pub fn part<T>(list: &[T], from: usize, to: usize) -> &[T] {
    let end = to.min(list.len());
    &list[from.min(end)..end]
}

// Word i of a list of halves.
pub fn word(halves: &[u64], i: usize) -> Word {
    match halves.chunks(2).nth(i) {
        Some([lo, hi]) => Word { lo: *lo, hi: *hi },
        Some([lo, ..]) => Word { lo: *lo, hi: 0 },
        _ => Word { lo: 0, hi: 0 },
    }
}

// The first words of a list of halves.
pub fn row<const N: usize>(halves: &[u64]) -> [Word; N] {
    array::from_fn(|i| word(halves, i))
}

// Puts items to the front of an output.
pub fn put<T: Copy>(out: &mut [T], items: &[T]) {
    for (place, item) in out.iter_mut().zip(items) {
        *place = *item;
    }
}

// Puts words to the front of an output of halves.
pub fn put_words(out: &mut [u64], words: &[Word]) {
    for (place, word) in out.chunks_exact_mut(2).zip(words) {
        place[0] = word.lo;
        place[1] = word.hi;
    }
}

// Puts a list of halves, and zeros behind them.
pub fn fill(out: &mut [u64], halves: &[u64]) {
    out.fill(0);
    put(out, halves);
}
