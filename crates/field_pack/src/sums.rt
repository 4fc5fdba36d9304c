// Sums of words that are made one after the other.
ghost use Rattle.std.specs.Prelude.{◌≡◌, ℕ, ◌<◌};
ghost use Rattle.theory_laws.specs.Sum.{sum};
ghost use Rattle.field_gf128.specs.Word.{word};

use field_gf128::Word;

// The sum of the terms 0 to count - 1: where f says of each what it is as a number, that of f.
pub fn sum_of<F: Fn(usize) -> Word>(count: usize, term: F) -> Word
    requires { (i : ℕ) → i < count → F.pre term i }
    ensures { (f : ℕ → ℕ) → ((i : ℕ) (w : _) → i < count → F.post term i w → word w ≡ f i) → word result ≡ sum count f }
{
    let mut acc = Word { lo: 0, hi: 0 };
    for i in 0..count {
        acc = field_gf128::add(acc, term(i));
    }
    acc
}
