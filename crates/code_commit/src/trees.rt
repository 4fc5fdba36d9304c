// The tree of a level. These are helpers for this crate and those above: each requires that its level is one of the commitment's.
ghost use Rattle.std.specs.Prelude.{◌≡◌, ◌+◌, ◌*◌, ◌≤◌, length};
ghost use Rattle.theory_laws.specs.Lists.{flat};
ghost use Rattle.theory_field.specs.Words.{words};
ghost use Rattle.theory_record.specs.Widths.{widths_of, tree_length};
ghost use Rattle.theory_record.specs.Trees.{tree_for};
ghost use Rattle.code_commit.specs.helpers.LevelTree.{LevelTree};
ghost use Rattle.theory_record.specs.Lent.{fixed_by};

use code_level::{DOMAIN, level_domain, level_groups, level_length, level_width};
use theory_record::{Deposit, WidthSet};
use tree_digest::Hashing;
use tree_place::Shape;

// How many bytes level l's tree has.
pub fn tree_bytes(set: WidthSet, n: usize, k: usize, l: usize) -> usize
    requires { (n + k ≤ 24) × (l ≤ n) }
    ensures { result ≡ 32 * tree_length (widths_of set) n k l }
{
    32 * (2 * level_groups(set, n, k, l) - 1)
}

// Level l's tree over its values, at the level's width under level domain l, into a buffer of its size.
pub fn build_level<'a>(deposit: Deposit<'a>, l: usize, values: &[u64], tree: &mut [u8])
    requires { LevelTree (widths_of deposit.how.set) deposit.n deposit.k l (length deposit.base.now) (length values.now) (length tree.old) }
    ensures { tree.new ≡ flat (tree_for (fixed_by deposit.entry) l (words values.now)) }
{
    let mut domain = [0u8; DOMAIN];
    let size = level_domain(&mut domain, deposit.base, l);
    let hashing = Hashing {
        mode: deposit.how.mode,
        domain: &domain[..size],
    };
    let count = level_length(deposit.n, deposit.k, l);
    let width = level_width(deposit.how.set, deposit.n, deposit.k, l);
    tree_build::build(hashing, Shape { count, width }, values, tree).unwrap();
}
