// The work of a fold. It is a helper for this crate and those above: it requires that a fold at its variable can be done.
ghost use Rattle.std.specs.Prelude.{◌≡◌, ◌*◌, length};
ghost use Rattle.theory_field.specs.Words.{words};
ghost use Rattle.field_gf128.specs.Word.{word};
ghost use Rattle.theory_multilinear.specs.Fold.{fold_list};
ghost use Rattle.field_runs.specs.Runs.{Paired};

use field_gf128::Word;

// A codeword folded at a variable by r, with room for a table of r's multiples.
pub fn fold_within(var: usize, r: Word, src: &[u64], out: &mut [u64], multiples: &mut [u64])
    requires { Paired var (length src.now) × (length src.now ≡ 2 * length out.old) × (length multiples.old ≡ 8192) }
    ensures { words out.new ≡ fold_list var (word r) (words src.now) }
{
    field_runs::align(multiples, src);
    field_runs::fold(out, src, var as u64, r, multiples);
}

// The same, with room of its own.
pub fn fold_into(var: usize, r: Word, src: &[u64], out: &mut [u64])
    requires { (Paired var (length src.now)) × (length src.now ≡ 2 * length out.old) }
    ensures { words out.new ≡ fold_list var (word r) (words src.now) }
{
    let mut multiples = [0u64; 8192];
    fold_within(var, r, src, out, &mut multiples);
}
