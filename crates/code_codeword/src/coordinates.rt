// The list of original coordinates that are not folded away: its test, its start, and an entry dropped. These are helpers for this crate and those
// above; `drop_coordinate` requires that there is such an entry.
ghost use Rattle.std.specs.Prelude.{◌≡◌, ◌<◌, eqb, length};
ghost use Rattle.theory_laws.specs.Questions.{both};
ghost use Rattle.theory_multilinear.specs.Codeword.{all_coordinates};
ghost use Rattle.theory_code.specs.Questions.{rising};
ghost use Rattle.code_codeword.specs.Answers.{dropped_of};

// Whether a list holds strictly rising numbers below a bound.
fn are_rising(bound: usize, list: &[usize]) -> bool
    ensures { result ≡ rising 0 bound list.now }
{
    let mut least = 0;
    for x in list {
        if *x < least || *x >= bound {
            return false;
        }
        least = *x + 1;
    }
    true
}

// Whether a list holds exactly n strictly rising numbers below the original n.
pub fn are_unfolded(n: usize, original: usize, list: &[usize]) -> bool
    ensures { result ≡ both (eqb (length list.now) n) (rising 0 original list.now) }
{
    list.len() == n && are_rising(original, list)
}

// The list of a committed codeword: 0, 1, 2 and so on to its end.
pub fn all_coordinates(list: &mut [usize])
    ensures { list.new ≡ all_coordinates (length list.old) }
{
    for (i, c) in list.iter_mut().enumerate() {
        *c = i;
    }
}

// A list without its entry `var`: the entries behind it move down by one, and the last becomes 0.
pub fn drop_coordinate(var: usize, list: &mut [usize])
    requires { var < length list.old }
    ensures { list.new ≡ dropped_of var list.old }
{
    let last = list.len() - 1;
    list.copy_within(var + 1.., var);
    list[last] = 0;
}
