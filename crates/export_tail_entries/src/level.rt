// What `tail-list` finds, and the lines that it prints of it.
ghost use Rattle.std.specs.Prelude.{◌≤◌};

use export_text::Digits;
use field_gf128::Word;
use std::fmt;

// n, k and the entries of the last level: 2^k words, zeros after them.
#[derive(Clone, Copy)]
pub struct LastLevel {
    pub n: usize,
    pub k: usize,
    pub entries: [u64; 32],
    ghost few: { k ≤ 4 },
}

// The lines of n and k and of each entry: `tail`, eps in decimal, and the word in 32 hexadecimal digits.
impl fmt::Display for LastLevel {
    fn fmt<W: fmt::Write>(&self, f: &mut fmt::Formatter<W>) -> fmt::Result {
        let LastLevel { n, k, entries } = *self;
        writeln!(f, "n {n} k {k}")?;
        for (eps, entry) in entries.chunks_exact(2).take(1 << k).enumerate() {
            let word = Word {
                lo: entry[0],
                hi: entry[1],
            };
            writeln!(f, "tail {eps} {}", Digits(word))?;
        }
        Ok(())
    }
}
