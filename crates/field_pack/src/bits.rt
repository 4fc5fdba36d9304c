// Nibbles of a half, and words chosen by a bit. These are helpers for the entries here and in the crates above: `nibble` requires.
ghost use Rattle.std.specs.Prelude.{◌≡◌, ◌*◌, ◌/◌, ◌%◌, ◌^◌, ◌<◌};
ghost use Rattle.theory_laws.specs.Xor.{sel};
ghost use Rattle.field_gf128.specs.Word.{word};

use field_gf128::Word;

// Nibble i of a half.
pub fn nibble(half: u64, i: usize) -> usize
    requires { i < 16 }
    ensures { result ≡ half / 2 ^ (4 * i) % 16 }
{
    ((half >> (4 * i)) & 15) as usize
}

// The word where the bit is set, else 0.
pub fn select(bit: u64, w: Word) -> Word
    ensures { word result ≡ sel bit (word w) }
{
    if bit == 0 {
        return Word { lo: 0, hi: 0 };
    }
    w
}
