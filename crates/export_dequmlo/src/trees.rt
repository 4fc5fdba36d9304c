// Trees over groups of words: built, opened at a place, and the root that a group and a path lead to; the domain and the tree of a level.
ghost use Rattle.std.specs.Prelude.{◌≡◌, length};
ghost use Rattle.theory_merkle.specs.Numbers.{build_number, open_number};
ghost use Rattle.tree_build.specs.Built.{built_into};
ghost use Rattle.tree_path.specs.Answers.{opened_into, root_answer};
ghost use Rattle.theory_laws.specs.Lists.{flat};
ghost use Rattle.theory_laws.specs.Questions.{on_done};
ghost use Rattle.theory_field.specs.Words.{words};
ghost use Rattle.theory_record.specs.Widths.{widths_of, width_for};
ghost use Rattle.theory_record.specs.Domain.{level_domain};
ghost use Rattle.theory_record.specs.Trees.{tree_for};
ghost use Rattle.code_level.specs.Domain.{domain_number, domain_length_of};
ghost use Rattle.code_commit.specs.Lent.{level_tree_lent};
ghost use Rattle.export_dequmlo.specs.Answers.{digested, domain_length};
ghost use Rattle.export_dequmlo.specs.Keys.{mode_of, scheme_by, with_trees};
ghost use Rattle.export_dequmlo.specs.Sets.{with_set};

use crate::answers::number_of;
use crate::hashing::{Digested, digest_answered};
use crate::keys::{Key, hashing_of, trees_named};
use crate::sets::set_named;
use tree_place::{Place, Shape};

// The width of the groups of a level of this many values: the set's from its threshold on, 2 from length 2, else 1; 0 where the number names no set.
pub fn dequmlo_fold_tree_width(widths: u32, length: usize) -> usize
    ensures { result ≡ with_set widths (λ set. width_for (widths_of set) length) 0 }
{
    match set_named(widths) {
        Ok(set) => code_level::fold_tree_width(set, length),
        Err(_) => 0,
    }
}

// The tree over groups of words, leaves first, 2 × groups - 1 digests: 7, 8, 9, 10, 5.
pub fn dequmlo_tree(
    key: Key,
    domain: &[u8],
    count: usize,
    width: usize,
    values: &[u64],
    tree: &mut [u8],
) -> u32
    ensures value { result ≡ build_number (length domain.now) count width (length values.now) (length tree.old) }
    ensures tree_after { tree.new ≡ built_into (mode_of key) domain.now count width values.now tree.old }
{
    number_of(tree_build::build(
        hashing_of(key, domain),
        Shape { count, width },
        values,
        tree,
    ))
}

// The path of the group that holds a place, off a tree that `dequmlo_tree` built: 8, 9, 10, 11, 5.
pub fn dequmlo_open(count: usize, width: usize, place: usize, tree: &[u8], path: &mut [u8]) -> u32
    ensures value { result ≡ open_number count width place (length tree.now) (length path.old) }
    ensures path_after { path.new ≡ opened_into count width place tree.now path.old }
{
    number_of(tree_path::open(Shape { count, width }, Place::at(place), tree, path))
}

// The root that the group of a place and a path lead to: 7, 8, 9, 10, 11, 12, 5.
pub fn dequmlo_root_of_path(
    key: Key,
    domain: &[u8],
    count: usize,
    width: usize,
    place: usize,
    values: &[u64],
    path: &[u8],
) -> Digested
    ensures { digested result ≡ root_answer (mode_of key) domain.now count width place values.now path.now }
{
    let hashing = hashing_of(key, domain);
    let shape = Shape { count, width };
    digest_answered(tree_path::root_of_path(hashing, shape, Place::at(place), values, path))
}

// The number, and a length, 0 where it is refused.
#[repr(C)]
#[derive(Clone, Copy)]
pub struct DomainLength {
    pub number: u32,
    pub length: usize,
}

// How long the domain of a level is: 4, 7.
pub fn dequmlo_level_domain_length(base: &[u8], level: usize) -> DomainLength
    ensures { domain_length result ≡ domain_length_of base.now level }
{
    match code_level::domain::level_domain_length(base, level) {
        Ok(length) => DomainLength { number: 0, length },
        Err(refusal) => DomainLength {
            number: refusal.number(),
            length: 0,
        },
    }
}

// The domain of a level, into a buffer of its length: 4, 5, 7.
pub fn dequmlo_level_domain(base: &[u8], level: usize, out: &mut [u8]) -> u32
    ensures value { result ≡ domain_number base.now level (length out.old) }
    ensures out_after { out.new ≡ on_done result (level_domain base.now level) out.old }
{
    number_of(code_level::domain::level_domain(base, level, out))
}

// The tree of a level over its values, into a buffer of its size: 4, 5, 7.
pub fn dequmlo_level_tree(
    key: Key,
    widths: u32,
    n: usize,
    k: usize,
    level: usize,
    base: &[u8],
    values: &[u64],
    tree: &mut [u8],
) -> u32
    ensures value { result ≡ with_trees key widths (λ how. level_tree_lent how n k level base values tree) 4 }
    ensures tree_after { tree.new
        ≡ on_done result (flat (tree_for (scheme_by key widths base n k) level (words values.now))) tree.old }
{
    match trees_named(key, widths) {
        Ok(how) => number_of(code_commit::level::level_tree(how, n, k, level, base, values, tree)),
        Err(refusal) => refusal.number(),
    }
}
