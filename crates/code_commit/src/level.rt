// The tree of a level, as an entry.
ghost use Rattle.std.specs.Prelude.{◌≡◌};
ghost use Rattle.theory_laws.specs.Lists.{flat};
ghost use Rattle.theory_laws.specs.Questions.{on_done};
ghost use Rattle.theory_laws.specs.Refusals.{answered};
ghost use Rattle.theory_field.specs.Words.{words};
ghost use Rattle.theory_record.specs.Widths.{widths_of};
ghost use Rattle.theory_record.specs.Trees.{tree_for};
ghost use Rattle.theory_record.specs.Lent.{scheme_of};
ghost use Rattle.code_commit.specs.Lent.{level_tree_lent};
ghost use Rattle.code_commit.specs.Level.{level_tree_number};

use crate::trees::{build_level, tree_bytes};
use code_level::{level_length, size_questions};
use theory_laws::Refusal;
use theory_record::{Deposit, Trees, WidthSet};

// 4, 5 and 7.
fn questions(
    set: WidthSet,
    n: usize,
    k: usize,
    l: usize,
    base: usize,
    values: usize,
    tree: usize,
) -> Result<(), Refusal>
    ensures { answered result ≡ level_tree_number (widths_of set) n k l base values tree }
{
    size_questions(n, k)?;
    if l > n {
        return Err(Refusal::Parameters);
    }
    if values != 2 * level_length(n, k, l) {
        return Err(Refusal::Length);
    }
    if tree != tree_bytes(set, n, k, l) {
        return Err(Refusal::Length);
    }
    if base > 200 {
        return Err(Refusal::Domain);
    }
    Ok(())
}

// The tree over level l's values, by a set of widths and a mode, under level domain l, into a buffer of its size. It refuses n that is not from
// 1 to 20, k past 4 or l past n with 4, lengths that are not theirs with 5, and a base domain of more than 200 bytes with 7.
pub fn level_tree(
    how: Trees,
    n: usize,
    k: usize,
    l: usize,
    base: &[u8],
    values: &[u64],
    tree: &mut [u8],
) -> Result<(), Refusal>
    ensures value { answered result ≡ level_tree_lent how n k l base values tree }
    ensures tree_after { tree.new ≡ on_done (answered result) (flat (tree_for (scheme_of how base n k) l (words values.now))) tree.old }
{
    questions(how.set, n, k, l, base.len(), values.len(), tree.len())?;
    let deposit = Deposit { how, base, n, k };
    build_level(deposit, l, values, tree);
    Ok(())
}
