// Parts of the work, each into a buffer of its own, for callers that divide it over threads: a block of the codeword or half of one, entries of a
// fold, leaves and parents of a tree; the same of a level of a commitment; and the gammas, which come before the blocks. Consecutive parts end to
// end are what the whole leaves (theory_laws/proofs/Parts).
ghost use Rattle.std.specs.Prelude.{◌≡◌, ◌*◌, ◌/◌, length};
ghost use Rattle.theory_laws.specs.Questions.{on_done};
ghost use Rattle.theory_field.specs.Words.{words};
ghost use Rattle.field_gf128.specs.Word.{word};
ghost use Rattle.theory_blake3.specs.Digest.{hash};
ghost use Rattle.theory_blake3.specs.Modes.{under};
ghost use Rattle.theory_code.specs.Gammas as G;
ghost use Rattle.theory_code.specs.Questions.{derive_number};
ghost use Rattle.theory_code.specs.PartQuestions.{block_number, half_number, fold_part_number};
ghost use Rattle.theory_merkle.specs.PartQuestions.{leaves_number, parents_number};
ghost use Rattle.theory_record.specs.Domain.{level_domain};
ghost use Rattle.code_parts.specs.Parts.{block_into, half_into, fold_part_into};
ghost use Rattle.tree_parts.specs.Parts.{leaves_into, parents_of, parents_into};
ghost use Rattle.code_level_parts.specs.Numbers.{next_part_number, level_parents_number};
ghost use Rattle.code_level_parts.specs.Parts.{level_leaves_of, level_leaves_lent};
ghost use Rattle.export_dequmlo.specs.Keys.{mode_of, trees_of, with_trees};

use crate::answers::number_of;
use crate::keys::{Key, hashing_of, mode_of, trees_named};
use field_gf128::Word;
use tree_place::Shape;

// The gammas of a base domain: 4, 5, 7.
pub fn dequmlo_gammas(n: usize, k: usize, base: &[u8], gammas: &mut [u64]) -> u32
    ensures value { result ≡ derive_number n k (length base.now) (length gammas.old) }
    ensures gammas_after { words gammas.new ≡ on_done result (G.gammas hash base.now n k) (words gammas.old) }
{
    number_of(code_gamma::derive(n, k, base, gammas))
}

// Block eps of the codeword of a table of 2^n words: 4, 5, 11.
pub fn dequmlo_codeword_block(
    n: usize,
    k: usize,
    eps: usize,
    table: &[u64],
    gammas: &[u64],
    out: &mut [u64],
) -> u32
    ensures value { result ≡ block_number n k eps (length table.now) (length gammas.now) (length out.old) }
    ensures out_after { words out.new ≡ block_into result n k gammas.now eps table.now out.old }
{
    number_of(code_parts::codeword_block(n, k, eps, table, gammas, out))
}

// Half a block of the codeword of a table of 2^n words: 4, 5, 11.
pub fn dequmlo_codeword_half(
    n: usize,
    k: usize,
    half: usize,
    table: &[u64],
    gammas: &[u64],
    out: &mut [u64],
) -> u32
    ensures value { result ≡ half_number n k half (length table.now) (length gammas.now) (length out.old) }
    ensures out_after { words out.new ≡ half_into result n k gammas.now half table.now out.old }
{
    number_of(code_parts::codeword_half(n, k, half, table, gammas, out))
}

// Entries of a codeword folded at a variable by r, from entry `first` on: 4, 5, 6, 11.
pub fn dequmlo_fold_part(
    n: usize,
    k: usize,
    var: usize,
    r: Word,
    first: usize,
    codeword: &[u64],
    out: &mut [u64],
) -> u32
    ensures value { result ≡ fold_part_number n k var first (length codeword.now) (length out.old) }
    ensures out_after { words out.new ≡ fold_part_into result first var (word r) codeword.now out.old }
{
    number_of(code_parts::fold_part(n, k, var, r, first, codeword, out))
}

// The leaves of a tree from group `first` on: 7, 8, 9, 10, 11, 5.
pub fn dequmlo_tree_leaves(
    key: Key,
    domain: &[u8],
    count: usize,
    width: usize,
    first: usize,
    values: &[u64],
    out: &mut [u8],
) -> u32
    ensures value { result ≡ leaves_number (length domain.now) count width first (length values.now) (length out.old) }
    ensures out_after { out.new ≡ leaves_into (mode_of key) domain.now count width first values.now out.old }
{
    let hashing = hashing_of(key, domain);
    number_of(tree_parts::leaves(hashing, Shape { count, width }, first, values, out))
}

// The parents of digests of a level of a tree, two by two: 5, 7.
pub fn dequmlo_tree_parents(
    key: Key,
    domain: &[u8],
    level: usize,
    children: &[u8],
    out: &mut [u8],
) -> u32
    ensures value { result ≡ parents_number (length domain.now) (length children.now) (length out.old) }
    ensures out_after { out.new ≡ parents_into (mode_of key) domain.now level children.now out.old }
{
    number_of(tree_parts::parents(hashing_of(key, domain), level, children, out))
}

// Entries of the level after a level, from entry `first` on, by its challenge: 4, 5, 11.
pub fn dequmlo_next_part(
    n: usize,
    k: usize,
    level: usize,
    r: Word,
    first: usize,
    values: &[u64],
    out: &mut [u64],
) -> u32
    ensures value { result ≡ next_part_number n k level first (length values.now) (length out.old) }
    ensures out_after { words out.new ≡ fold_part_into result first 0 (word r) values.now out.old }
{
    number_of(code_level_parts::next_part(n, k, level, r, first, values, out))
}

// The leaves of a level's tree from group `first` on: 4, 5, 7, 11.
pub fn dequmlo_level_leaves(
    key: Key,
    widths: u32,
    n: usize,
    k: usize,
    level: usize,
    base: &[u8],
    first: usize,
    values: &[u64],
    out: &mut [u8],
) -> u32
    ensures value { result ≡ with_trees key widths (λ how. level_leaves_lent how n k level base first values out) 4 }
    ensures out_after { out.new ≡ on_done result (level_leaves_of (trees_of key widths) n k level base first values out) out.old }
{
    match trees_named(key, widths) {
        Ok(how) => number_of(code_level_parts::level_leaves(
            how, n, k, level, base, first, values, out,
        )),
        Err(refusal) => refusal.number(),
    }
}

// The parents of digests of a level's tree, two by two: 4, 5, 7.
pub fn dequmlo_level_parents(
    key: Key,
    n: usize,
    k: usize,
    level: usize,
    base: &[u8],
    height: usize,
    children: &[u8],
    out: &mut [u8],
) -> u32
    ensures value { result ≡ level_parents_number n k level (length base.now) (length children.now) (length out.old) }
    ensures out_after { out.new
        ≡ on_done result (parents_of (under (mode_of key)) (level_domain base.now level) height children.now) out.old }
{
    number_of(code_level_parts::level_parents(
        mode_of(key),
        n,
        k,
        level,
        base,
        height,
        children,
        out,
    ))
}
