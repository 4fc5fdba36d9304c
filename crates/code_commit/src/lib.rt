// Committing a table, after eval.rs: its gammas, its codeword with the list of its coordinates, and level 0's tree, into four lent buffers; and the tree
// of any level. A refused call changes no lent byte.
#![tactic(auto)]

pub mod level;
pub mod trees;

ghost use Rattle.std.specs.Prelude.{◌≡◌};
ghost use Rattle.theory_laws.specs.Questions.{on_done};
ghost use Rattle.theory_laws.specs.Refusals.{answered};
ghost use Rattle.theory_field.specs.Words.{words};
ghost use Rattle.theory_multilinear.specs.Codeword.{all_coordinates};
ghost use Rattle.theory_blake3.specs.Digest.{hash};
ghost use Rattle.theory_code.specs.Gammas as G;
ghost use Rattle.theory_record.specs.Widths.{widths_of};
ghost use Rattle.theory_claim.specs.Commit.{commit_number, committed_tree};
ghost use Rattle.code_commit.specs.Lent.{commit_lent, codeword_lent};
ghost use Rattle.theory_record.specs.Lent.{scheme_of};

use code_codeword::coordinates::all_coordinates;
use code_codeword::sizes::holds;
use theory_laws::Refusal;
use theory_record::{Deposit, Trees, WidthSet};
use trees::{build_level, tree_bytes};

// The questions of `commit`.
fn questions(
    set: WidthSet,
    n: usize,
    k: usize,
    base: usize,
    table: usize,
    gammas: usize,
    codeword: usize,
    coordinates: usize,
    tree: usize,
) -> Result<(), Refusal>
    ensures { answered result ≡ commit_number (widths_of set) n k base table gammas codeword coordinates tree }
{
    if n > 20 {
        return Err(Refusal::Parameters);
    }
    if k > 4 {
        return Err(Refusal::Parameters);
    }
    if !holds(table, n) {
        return Err(Refusal::Length);
    }
    if gammas != 2 * (k * n) {
        return Err(Refusal::Length);
    }
    if !holds(codeword, n + k) {
        return Err(Refusal::Length);
    }
    if coordinates != n {
        return Err(Refusal::Length);
    }
    if tree != tree_bytes(set, n, k, 0) {
        return Err(Refusal::Length);
    }
    if base > 200 {
        return Err(Refusal::Domain);
    }
    Ok(())
}

// The gammas of a base domain, the codeword of a table of 2^n words, its list, 0 to n - 1, and level 0's tree by a set of widths and a mode. It
// refuses n past 20 or k past 4 with 4, lengths that are not theirs with 5, and a base domain of more than 200 bytes with 7.
pub fn commit(
    how: Trees,
    n: usize,
    k: usize,
    base: &[u8],
    table: &[u64],
    gammas: &mut [u64],
    codeword: &mut [u64],
    coordinates: &mut [usize],
    tree: &mut [u8],
) -> Result<(), Refusal>
    ensures value { answered result ≡ commit_lent how n k base table gammas codeword coordinates tree }
    ensures gammas_after { words gammas.new ≡ on_done (answered result) (G.gammas hash base.now n k) (words gammas.old) }
    ensures codeword_after { words codeword.new ≡ on_done (answered result) (codeword_lent n k base table) (words codeword.old) }
    ensures coordinates_after { coordinates.new ≡ on_done (answered result) (all_coordinates n) coordinates.old }
    ensures tree_after { tree.new ≡ on_done (answered result) (committed_tree (scheme_of how base n k) (words table.now)) tree.old }
{
    questions(
        how.set,
        n,
        k,
        base.len(),
        table.len(),
        gammas.len(),
        codeword.len(),
        coordinates.len(),
        tree.len(),
    )?;
    code_gamma::derive(n, k, base, gammas).unwrap();
    code_codeword::encode(n, k, table, gammas, codeword).unwrap();
    all_coordinates(coordinates);
    let deposit = Deposit { how, base, n, k };
    build_level(deposit, 0, codeword, tree);
    Ok(())
}
