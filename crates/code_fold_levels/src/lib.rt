// All levels of a committed codeword by its challenges, their trees and their roots, in one call, after eval.rs. The entry is `fold_levels`;
// the other functions require.
#![tactic(auto)]

ghost use Rattle.std.specs.Prelude.{◌≡◌, suc, ◌*◌, ◌<◌, length, take};
ghost use Rattle.theory_laws.specs.Questions.{on_done};
ghost use Rattle.theory_laws.specs.Refusals.{answered};
ghost use Rattle.theory_laws.specs.Table.{tab};
ghost use Rattle.theory_field.specs.Words.{words};
ghost use Rattle.field_gf128.specs.Word.{word};
ghost use Rattle.theory_record.specs.Widths.{widths_of, level_length};
ghost use Rattle.theory_record.specs.Trees.{levels_lent, trees_lent, roots_lent};
ghost use Rattle.theory_record.specs.Build.{level_start};
ghost use Rattle.theory_record.specs.Lent.{scheme_of};
ghost use Rattle.code_levels.specs.helpers.Levels.{laid, level_folded, Room, LevelLent};
ghost use Rattle.code_fold_levels.specs.Levels.{fold_levels_number, fold_levels_lent, folded_lent};

use code_codeword::folding::fold_into;
use code_level::{level_length, levels_length, size_questions, trees_size};
use code_level_trees::all_trees;
use code_levels::lay;
use field_gf128::Word;
use field_words::{clear, get};
use theory_laws::Refusal;
use theory_record::{Deposit, Trees, WidthSet};

// 4, 5 and 7.
fn questions(
    set: WidthSet,
    n: usize,
    k: usize,
    base: usize,
    challenges: usize,
    levels: usize,
    half: usize,
    trees: usize,
    roots: usize,
) -> Result<(), Refusal>
    ensures { answered result ≡ fold_levels_number (widths_of set) n k base challenges levels half trees roots }
{
    size_questions(n, k)?;
    if challenges != 2 * n {
        return Err(Refusal::Length);
    }
    if levels != 2 * levels_length(n, k) {
        return Err(Refusal::Length);
    }
    if half != 2 * level_length(n, k, 1) {
        return Err(Refusal::Length);
    }
    if trees != trees_size(set, n, k) {
        return Err(Refusal::Length);
    }
    if roots != 32 * (n + 1) {
        return Err(Refusal::Length);
    }
    if base > 200 {
        return Err(Refusal::Domain);
    }
    Ok(())
}

// Level l, which starts at the half `from`, folded at variable 0 by r into the front of `half`.
fn fold_front(n: usize, k: usize, l: usize, from: usize, r: Word, levels: &[u64], half: &mut [u64])
    requires { (LevelLent n k l from (length levels.now) (length half.old)) × (l < n) }
    ensures { words (take (level_length n k l) half.new) ≡ level_folded n k l 0 (word r) levels.now }
{
    let size = level_length(n, k, l);
    let to = from + 2 * size;
    fold_into(0, r, &levels[from..to], &mut half[..size]);
}

// Level l + 1, folded from level l, which starts at the half `from`, at variable 0 by r, and laid behind it: the half where it starts.
fn next_level(
    n: usize,
    k: usize,
    l: usize,
    from: usize,
    r: Word,
    levels: &mut [u64],
    half: &mut [u64],
) -> usize
    requires { (LevelLent n k l from (length levels.old) (length half.old)) × (l < n) }
    ensures value { result ≡ 2 * level_start n k (suc l) }
    ensures levels_after { words levels.new ≡ laid n k (suc l) (level_folded n k l 0 (word r) levels.old) (words levels.old) }
{
    fold_front(n, k, l, from, r, levels, half);
    let to = from + 2 * level_length(n, k, l);
    lay(n, k, l + 1, to, half, levels);
    to
}

// Levels 1 to n behind level 0, each from the one before by its challenge. `half`, room for a fold, is left with zeros.
fn fold_all(n: usize, k: usize, challenges: &[u64], levels: &mut [u64], half: &mut [u64])
    requires { (Room n k (length levels.old) (length half.old)) × (length challenges.now ≡ 2 * n) }
    ensures levels_after { words levels.new ≡ levels_lent n (folded_lent n k challenges levels) }
    ensures half_after { half.new ≡ tab (length half.old) (λ v. 0) }
{
    let mut from: usize = 0;
    for l in 0..n {
        let r = get(challenges, l);
        from = next_level(n, k, l, from, r, levels, half);
    }
    clear(half);
}

// All levels of the codeword that stands as level 0 at the front of `levels`, by n challenges, their trees by a set of widths and a mode, and
// their roots. `half`, room for half of the codeword, is left with zeros. It refuses n that is not from 1 to 20 or k past 4 with 4, lengths that are
// not theirs with 5, and a base domain of more than 200 bytes with 7. What it leaves is what the claim builds its records from (proofs/Claim).
pub fn fold_levels(
    how: Trees,
    n: usize,
    k: usize,
    base: &[u8],
    challenges: &[u64],
    levels: &mut [u64],
    half: &mut [u64],
    trees: &mut [u8],
    roots: &mut [u8],
) -> Result<(), Refusal>
    ensures value { answered result ≡ fold_levels_lent how n k base challenges levels half trees roots }
    ensures levels_after { words levels.new ≡ on_done (answered result) (levels_lent n (folded_lent n k challenges levels)) (words levels.old) }
    ensures half_after { half.new ≡ on_done (answered result) (tab (length half.old) (λ v. 0)) half.old }
    ensures trees_after { trees.new ≡ on_done (answered result) (trees_lent (scheme_of how base n k) (folded_lent n k challenges levels)) trees.old }
    ensures roots_after { roots.new ≡ on_done (answered result) (roots_lent (scheme_of how base n k) (folded_lent n k challenges levels)) roots.old }
{
    questions(
        how.set,
        n,
        k,
        base.len(),
        challenges.len(),
        levels.len(),
        half.len(),
        trees.len(),
        roots.len(),
    )?;
    fold_all(n, k, challenges, levels, half);
    let deposit = Deposit { how, base, n, k };
    all_trees(deposit, levels, trees, roots);
    Ok(())
}
