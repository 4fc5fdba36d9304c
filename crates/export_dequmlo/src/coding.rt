// Committing a table, folding a codeword, and all levels of a commitment by its challenges.
ghost use Rattle.std.specs.Prelude.{◌≡◌, length};
ghost use Rattle.theory_laws.specs.Questions.{on_done};
ghost use Rattle.theory_laws.specs.Table.{tab};
ghost use Rattle.theory_field.specs.Words.{words};
ghost use Rattle.field_gf128.specs.Word.{word};
ghost use Rattle.theory_blake3.specs.Digest.{hash};
ghost use Rattle.theory_multilinear.specs.Fold.{fold_list};
ghost use Rattle.theory_multilinear.specs.Codeword.{all_coordinates};
ghost use Rattle.theory_code.specs.Questions.{fold_number};
ghost use Rattle.code_codeword.specs.Answers.{folded_of, dropped_of};
ghost use Rattle.theory_code.specs.Gammas as G;
ghost use Rattle.theory_claim.specs.Commit.{committed_tree};
ghost use Rattle.code_commit.specs.Lent.{commit_lent, codeword_lent};
ghost use Rattle.theory_record.specs.Trees.{levels_lent, trees_lent, roots_lent};
ghost use Rattle.code_fold_levels.specs.Levels.{fold_levels_lent, folded_lent};
ghost use Rattle.export_dequmlo.specs.Answers.{folded};
ghost use Rattle.export_dequmlo.specs.Keys.{scheme_by, with_trees};

use crate::answers::number_of;
use crate::keys::{Key, trees_named};
use field_gf128::Word;

// The gammas of a base domain, the codeword of a table of 2^n words, its list, 0 to n - 1, and level 0's tree: 4, 5, 7.
pub fn dequmlo_commit(
    key: Key,
    widths: u32,
    n: usize,
    k: usize,
    base: &[u8],
    table: &[u64],
    gammas: &mut [u64],
    codeword: &mut [u64],
    coordinates: &mut [usize],
    tree: &mut [u8],
) -> u32
    ensures value { result ≡ with_trees key widths (λ how. commit_lent how n k base table gammas codeword coordinates tree) 4 }
    ensures gammas_after { words gammas.new ≡ on_done result (G.gammas hash base.now n k) (words gammas.old) }
    ensures codeword_after { words codeword.new ≡ on_done result (codeword_lent n k base table) (words codeword.old) }
    ensures coordinates_after { coordinates.new ≡ on_done result (all_coordinates n) coordinates.old }
    ensures tree_after { tree.new
        ≡ on_done result (committed_tree (scheme_by key widths base n k) (words table.now)) tree.old }
{
    match trees_named(key, widths) {
        Ok(how) => number_of(code_commit::commit(
            how,
            n,
            k,
            base,
            table,
            gammas,
            codeword,
            coordinates,
            tree,
        )),
        Err(refusal) => refusal.number(),
    }
}

// The number, and the n of the folded codeword, 0 where it is refused.
#[repr(C)]
#[derive(Clone, Copy)]
pub struct Folded {
    pub number: u32,
    pub n: usize,
}

// A codeword in use folded at a variable by r, into a buffer of half its length, and its list left without the variable's entry, 0 after its end: 4, 5, 36,
// 6.
pub fn dequmlo_fold(
    n: usize,
    k: usize,
    original: usize,
    var: usize,
    r: Word,
    coordinates: &mut [usize],
    codeword: &[u64],
    out: &mut [u64],
) -> Folded
    ensures result_value { folded result
        ≡ folded_of n (fold_number n k original var coordinates.old (length codeword.now) (length out.old)) }
    ensures coordinates_after { coordinates.new ≡ on_done result.number (dropped_of var coordinates.old) coordinates.old }
    ensures out_after { words out.new ≡ on_done result.number (fold_list var (word r) (words codeword.now)) (words out.old) }
{
    match code_codeword::fold(n, k, original, var, r, coordinates, codeword, out) {
        Ok(n) => Folded { number: 0, n },
        Err(refusal) => Folded {
            number: refusal.number(),
            n: 0,
        },
    }
}

// All levels of the codeword that stands as level 0 at the front of `levels`, by n challenges, their trees and their roots: 4, 5, 7.
pub fn dequmlo_fold_levels(
    key: Key,
    widths: u32,
    n: usize,
    k: usize,
    base: &[u8],
    challenges: &[u64],
    levels: &mut [u64],
    half: &mut [u64],
    trees: &mut [u8],
    roots: &mut [u8],
) -> u32
    ensures value { result ≡ with_trees key widths (λ how. fold_levels_lent how n k base challenges levels half trees roots) 4 }
    ensures levels_after { words levels.new ≡ on_done result (levels_lent n (folded_lent n k challenges levels)) (words levels.old) }
    ensures half_after { half.new ≡ on_done result (tab (length half.old) (λ v. 0)) half.old }
    ensures trees_after { trees.new
        ≡ on_done result (trees_lent (scheme_by key widths base n k) (folded_lent n k challenges levels)) trees.old }
    ensures roots_after { roots.new
        ≡ on_done result (roots_lent (scheme_by key widths base n k) (folded_lent n k challenges levels)) roots.old }
{
    match trees_named(key, widths) {
        Ok(how) => number_of(code_fold_levels::fold_levels(
            how, n, k, base, challenges, levels, half, trees, roots,
        )),
        Err(refusal) => refusal.number(),
    }
}
