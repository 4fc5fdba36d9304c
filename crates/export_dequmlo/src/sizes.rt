// The sizes of every buffer that a set of widths, n and k fix, so that a caller can lend what question 5 asks for.
ghost use Rattle.std.specs.Prelude.{◌≡◌, IfOk};
ghost use Rattle.theory_laws.specs.Refusals.{answered};
ghost use Rattle.theory_record.specs.Accepted.{SizesFit};
ghost use Rattle.export_dequmlo.specs.Sets.{set_of};
ghost use Rattle.export_dequmlo.specs.Sizes.{sizes_number, sizes_under, sizes_of};

use crate::sets::set_named;
use theory_laws::Refusal;
use theory_record::WidthSet;

// Words of the table, the gammas, the codeword, all levels, room for a fold and the last level; bytes of level 0's tree, of all trees, of the
// last level's tree, of the roots, and of a query and a tail record.
#[repr(C)]
#[derive(Clone, Copy, Debug, PartialEq, Eq)]
pub struct Sizes {
    pub number: u32,
    pub table: usize,
    pub gammas: usize,
    pub codeword: usize,
    pub tree: usize,
    pub levels: usize,
    pub trees: usize,
    pub half: usize,
    pub roots: usize,
    pub last_level: usize,
    pub last_tree: usize,
    pub query: usize,
    pub tail: usize,
}

// None, without a number.
const NONE: Sizes = Sizes {
    number: 0,
    table: 0,
    gammas: 0,
    codeword: 0,
    tree: 0,
    levels: 0,
    trees: 0,
    half: 0,
    roots: 0,
    last_level: 0,
    last_tree: 0,
    query: 0,
    tail: 0,
};

// Question 4: does the number name a set, is n from 1 to 20 and k at most 4?
fn sized_set(widths: u32, n: usize, k: usize) -> Result<WidthSet, Refusal>
    ensures number_value { answered result ≡ sizes_number widths n k }
    ensures set_value { IfOk result (λ set. set ≡ set_of widths) }
{
    let set = set_named(widths)?;
    code_level::size_questions(n, k)?;
    Ok(set)
}

// The sizes of a set of widths.
fn sizes_under(set: WidthSet, n: usize, k: usize) -> Sizes
    requires { SizesFit n k }
    ensures { result ≡ sizes_under set n k }
{
    Sizes {
        number: 0,
        table: code_codeword::sizes::power(n),
        gammas: k * n,
        codeword: code_level::level_length(n, k, 0),
        tree: code_commit::trees::tree_bytes(set, n, k, 0),
        levels: code_level::levels_length(n, k),
        trees: code_level::trees_size(set, n, k),
        half: code_level::level_length(n, k, 1),
        roots: 32 * (n + 1),
        last_level: code_level::level_length(n, k, n),
        last_tree: code_commit::trees::tree_bytes(set, n, k, n),
        query: record_query_build::query_size(set, n, k),
        tail: record_tail_build::tail_size(set, n, k),
    }
}

// The sizes of a seal: 4 where the number names no set, n is not from 1 to 20 or k is above 4.
pub fn dequmlo_sizes(widths: u32, n: usize, k: usize) -> Sizes
    ensures { result ≡ sizes_of widths n k }
{
    match sized_set(widths, n, k) {
        Ok(set) => sizes_under(set, n, k),
        Err(refusal) => Sizes {
            number: refusal.number(),
            ..NONE
        },
    }
}
