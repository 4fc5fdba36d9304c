// The trees of all levels by a set of widths and a mode, and their roots, each end to end, level 0 first. These are helpers for the crates above: each
// requires that what it is lent has its length.
#![tactic(auto)]

ghost use Rattle.std.specs.Prelude.{◌≡◌, ◌+◌, ◌-◌, ◌*◌, ◌≤◌, length};
ghost use Rattle.theory_laws.specs.Lists.{part};
ghost use Rattle.theory_field.specs.Words.{words};
ghost use Rattle.bytes_numbers.specs.helpers.Put.{Put};
ghost use Rattle.theory_record.specs.Widths.{widths_of};
ghost use Rattle.theory_record.specs.Trees.{trees_lent, roots_lent};
ghost use Rattle.theory_record.specs.Build.{level_values};
ghost use Rattle.code_level_trees.specs.helpers.Room.{tree_made, Room, TreeRoom, FirstMade};
ghost use Rattle.theory_record.specs.Lent.{fixed_by};

use bytes_numbers::{load, put};
use code_commit::trees::{build_level, tree_bytes};
use code_level::level_length;
use theory_record::Deposit;

// Level l's tree, built in its place among the trees; the level starts at the half `from`, its tree at the byte `at`.
fn put_tree<'a>(
    deposit: Deposit<'a>,
    l: usize,
    levels: &[u64],
    from: usize,
    trees: &mut [u8],
    at: usize,
)
    requires { TreeRoom (widths_of deposit.how.set) deposit.n deposit.k l (length deposit.base.now) (length levels.now) (length trees.old) from at }
    ensures { trees.new ≡ tree_made (fixed_by deposit.entry) l levels.now at trees.old }
{
    let end = from + 2 * level_length(deposit.n, deposit.k, l);
    let to = at + tree_bytes(deposit.how.set, deposit.n, deposit.k, l);
    build_level(deposit, l, &levels[from..end], &mut trees[at..to]);
}

// The last digest of a tree that ends at a byte, put among the roots from a place on: the place after it.
fn put_root(roots: &mut [u8], place: usize, trees: &[u8], end: usize) -> usize
    requires { (32 ≤ end) × (end ≤ length trees.now) × (place + 32 ≤ length roots.old) }
    ensures { Put roots.old place 32 (part 32 (end - 32) trees.now) roots.new result }
{
    let root = load(trees, end - 32);
    put(roots, place, &root)
}

// The trees of levels 1 to n behind that of level 0, which is there, and the roots of all.
pub fn level_trees<'a>(deposit: Deposit<'a>, levels: &[u64], trees: &mut [u8], roots: &mut [u8])
    requires { FirstMade (fixed_by deposit) levels.now trees.old roots.old }
    ensures trees_after { trees.new ≡ trees_lent (fixed_by deposit.entry) (level_values deposit.entry.n deposit.entry.k (words levels.now)) }
    ensures roots_after { roots.new ≡ roots_lent (fixed_by deposit.entry) (level_values deposit.entry.n deposit.entry.k (words levels.now)) }
{
    let n = deposit.n;
    let k = deposit.k;
    let mut from = 2 * level_length(n, k, 0);
    let mut at = tree_bytes(deposit.how.set, n, k, 0);
    let mut place = put_root(roots, 0, trees, at);
    for l in 1..n + 1 {
        put_tree(deposit, l, levels, from, trees, at);
        from += 2 * level_length(n, k, l);
        at += tree_bytes(deposit.how.set, n, k, l);
        place = put_root(roots, place, trees, at);
    }
}

// The trees of all levels, and their roots.
pub fn all_trees<'a>(deposit: Deposit<'a>, levels: &[u64], trees: &mut [u8], roots: &mut [u8])
    requires { (Room (widths_of deposit.how.set) deposit.n deposit.k (length deposit.base.now) (length levels.now) (length trees.old))
        × (length roots.old ≡ 32 * (deposit.n + 1)) }
    ensures trees_after { trees.new ≡ trees_lent (fixed_by deposit.entry) (level_values deposit.entry.n deposit.entry.k (words levels.now)) }
    ensures roots_after { roots.new ≡ roots_lent (fixed_by deposit.entry) (level_values deposit.entry.n deposit.entry.k (words levels.now)) }
{
    put_tree(deposit, 0, levels, 0, trees, 0);
    level_trees(deposit, levels, trees, roots);
}
