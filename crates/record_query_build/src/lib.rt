// Building a query record. The entry is `build_query`; the other functions require.
#![tactic(auto)]

ghost use Rattle.std.specs.Prelude.{◌≡◌, ◌+◌, ◌*◌, ◌≤◌, ◌<◌, length};
ghost use Rattle.theory_laws.specs.Refusals.{answered};
ghost use Rattle.theory_field.specs.Words.{words};
ghost use Rattle.bytes_numbers.specs.helpers.Put.{Put};
ghost use Rattle.theory_record.specs.Widths.{widths_of};
ghost use Rattle.theory_record.specs.Sizes.{group_size, query_size};
ghost use Rattle.theory_record.specs.Build.{level_start, tree_start, query_bytes, build_query_number, build_query};
ghost use Rattle.theory_record.proofs.BuildAllowed.{QueryBuild};
ghost use Rattle.theory_record.proofs.Ranges.{SizesFit};
ghost use Rattle.tree_place.specs.Place.{index};
ghost use Rattle.record_query_build.specs.helpers.Levels.{lent_level, pair_bytes, groups_bytes, groups_size, paths_bytes, paths_size, LevelPut};
ghost use Rattle.record_query_build.specs.helpers.Levels.{PairRoom, GroupsRoom, PathsRoom, Room};
ghost use Rattle.record_query_build.specs.helpers.Sizes.{group_most};
ghost use Rattle.record_query_build.specs.helpers.Numbers.{build_number};

use bytes_numbers::put_number;
use code_level::{
    level_depth, level_groups, level_length, level_width, levels_length, size_questions, trees_size,
};
use field_bytes::put_words;
use record_writer::{put_digests, put_values};
use theory_laws::Refusal;
use theory_record::WidthSet;
use tree_place::{Place, group_of};

// A level as it is lent: the word and the byte at which its values and its tree begin, and its sizes.
#[derive(Clone, Copy, Debug, PartialEq, Eq)]
pub struct Level {
    pub words_at: usize,
    pub tree_at: usize,
    pub width: usize,
    pub depth: usize,
    pub groups: usize,
}

// Level l, where its values and its tree begin.
fn lent_level(set: WidthSet, n: usize, k: usize, l: usize, words_at: usize, tree_at: usize) -> Level
    requires { (n + k ≤ 24) × (l ≤ n) × (words_at ≡ level_start n k l) × (tree_at ≡ 32 * tree_start (widths_of set) n k l) }
    ensures { result ≡ lent_level (widths_of set) n k l }
{
    Level {
        words_at,
        tree_at,
        width: level_width(set, n, k, l),
        depth: level_depth(set, n, k, l),
        groups: level_groups(set, n, k, l),
    }
}

// The level after level l: its values and its tree stand after those of level l.
fn next_level(set: WidthSet, n: usize, k: usize, l: usize, x: Level) -> Level
    requires { (SizesFit n k) × (l < n) × (x ≡ lent_level (widths_of set) n k l) }
    ensures { result ≡ lent_level (widths_of set) n k (l + 1) }
{
    let words_at = x.words_at + level_length(n, k, l);
    let tree_at = x.tree_at + 32 * (2 * x.groups - 1);
    lent_level(set, n, k, l + 1, words_at, tree_at)
}

// The words a and b, at places 2q and 2q + 1 of a level, and c, at place q of the next.
fn put_pair(
    out: &mut [u8],
    from: usize,
    levels: &[u64],
    words_at: usize,
    next_at: usize,
    q: Place,
) -> usize
    requires { PairRoom (length out.old) from (length levels.now) words_at next_at (index q) }
    ensures { Put out.old from 48 (pair_bytes (words levels.now) words_at next_at (index q)) out.new result }
{
    let first = q.first_of_pair();
    let a = put_words(out, from, levels, words_at + first.index(), 2);
    put_words(out, a, levels, next_at + q.index(), 1)
}

// The group that holds a and b, place 2q, from level x, and the group that holds c, place q, from the next, y, each after its count.
fn put_groups(out: &mut [u8], from: usize, levels: &[u64], x: Level, y: Level, q: Place) -> usize
    requires { GroupsRoom (length out.old) from (length levels.now) x y (index q) }
    ensures { Put out.old from (groups_size x y) (groups_bytes (words levels.now) x y (index q)) out.new result }
{
    let g = group_of(q.first_of_pair(), x.width);
    let h = group_of(q, y.width);
    let a = put_values(out, from, levels, x.words_at, x.width, g);
    put_values(out, a, levels, y.words_at, y.width, h)
}

// The paths of these groups, each after its count.
fn put_paths(out: &mut [u8], from: usize, trees: &[u8], x: Level, y: Level, q: Place) -> usize
    requires { PathsRoom (length out.old) from (length trees.now) x y (index q) }
    ensures { Put out.old from (paths_size x y) (paths_bytes trees.now x y (index q)) out.new result }
{
    let g = group_of(q.first_of_pair(), x.width);
    let h = group_of(q, y.width);
    let a = put_digests(out, from, trees, x.tree_at, x.depth, x.groups, g);
    put_digests(out, a, trees, y.tree_at, y.depth, y.groups, h)
}

// A level of the record: the three words, the groups that hold them, and the paths of these.
fn put_level(
    out: &mut [u8],
    from: usize,
    levels: &[u64],
    trees: &[u8],
    x: Level,
    y: Level,
    q: Place,
) -> usize
    requires { Room (length out.old) from (length levels.now) (length trees.now) x y (index q) }
    ensures { LevelPut out.old from levels.now trees.now x y (index q) out.new result }
{
    let a = put_pair(out, from, levels, x.words_at, y.words_at, q);
    let b = put_groups(out, a, levels, x, y, q);
    put_paths(out, b, trees, x, y, q)
}

// Every level of the record at a position, after their count.
fn put_levels(
    out: &mut [u8],
    levels: &[u64],
    trees: &[u8],
    set: WidthSet,
    n: usize,
    k: usize,
    position: Place,
) -> usize
    requires { QueryBuild (widths_of set) n k levels.now trees.now (index position) out.old }
    ensures { out.new ≡ query_bytes (widths_of set) n k (words levels.now) trees.now (index position) }
{
    let mut at = put_number(out, 0, n as u64, 4);
    let mut x = lent_level(set, n, k, 0, 0, 0);
    for l in 0..n {
        let y = next_level(set, n, k, l, x);
        let q = position.folded(l + 1);
        at = put_level(out, at, levels, trees, x, y, q);
        x = y;
    }
    at
}

// How many bytes a group of level l and its path have in a record.
fn group_size(set: WidthSet, n: usize, k: usize, l: usize) -> usize
    requires { (n + k ≤ 24) × (l ≤ n) }
    ensures { (result ≡ group_size (widths_of set) n k l) × (result ≤ group_most) }
{
    8 + 16 * level_width(set, n, k, l) + 32 * level_depth(set, n, k, l)
}

// How many bytes a query record has.
pub fn query_size(set: WidthSet, n: usize, k: usize) -> usize
    requires { SizesFit n k }
    ensures { result ≡ query_size (widths_of set) n k }
{
    let mut size: usize = 4;
    for l in 0..n {
        size += 48 + group_size(set, n, k, l) + group_size(set, n, k, l + 1);
    }
    size
}

// 4, 5 and 11.
fn questions(
    levels: usize,
    trees: usize,
    out: usize,
    set: WidthSet,
    n: usize,
    k: usize,
    position: Place,
) -> Result<(), Refusal>
    ensures { answered result ≡ build_number (widths_of set) n k levels trees out (index position) }
{
    size_questions(n, k)?;
    if levels != 2 * levels_length(n, k) {
        return Err(Refusal::Length);
    }
    if trees != trees_size(set, n, k) {
        return Err(Refusal::Length);
    }
    if out != query_size(set, n, k) {
        return Err(Refusal::Length);
    }
    if position.index() >= level_length(n, k, 0) {
        return Err(Refusal::Place);
    }
    Ok(())
}

// Build the query record of a position from the levels and their trees, lent end to end, level 0 first, into a buffer of its size: 4, 5, 11.
pub fn build_query(
    out: &mut [u8],
    levels: &[u64],
    trees: &[u8],
    set: WidthSet,
    n: usize,
    k: usize,
    position: Place,
) -> Result<(), Refusal>
    ensures value { answered result ≡ build_query_number (widths_of set) n k levels.now trees.now (index position) out.old }
    ensures out_after { out.new ≡ build_query (widths_of set) n k levels.now trees.now (index position) out.old }
{
    questions(levels.len(), trees.len(), out.len(), set, n, k, position)?;
    put_levels(out, levels, trees, set, n, k, position);
    Ok(())
}
