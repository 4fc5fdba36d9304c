// Building a tail record. The entry is `build_tail`; the other functions require.
#![tactic(auto)]

ghost use Rattle.std.specs.Prelude.{◌≡◌, length};
ghost use Rattle.theory_laws.specs.Refusals.{answered};
ghost use Rattle.theory_field.specs.Words.{words};
ghost use Rattle.theory_record.specs.Widths.{widths_of};
ghost use Rattle.theory_record.specs.Sizes.{tail_size};
ghost use Rattle.theory_record.specs.Build.{build_tail_number, build_tail, tail_bytes};
ghost use Rattle.theory_record.proofs.BuildAllowed.{TailBuild};
ghost use Rattle.theory_record.proofs.Ranges.{SizesFit};
ghost use Rattle.tree_place.specs.Place.{number};
ghost use Rattle.record_tail_build.specs.helpers.Groups.{GroupPut, Room};
ghost use Rattle.record_tail_build.specs.helpers.Numbers.{build_number};

use bytes_numbers::put_number;
use code_level::{level_depth, level_groups, level_length, level_width, size_questions};
use field_bytes::put_words;
use theory_laws::Refusal;
use theory_record::WidthSet;
use tree_place::Group;
use tree_walk::put_path;

// A group's values after their count, and its path after its count.
fn put_group(
    out: &mut [u8],
    from: usize,
    level: &[u64],
    tree: &[u8],
    width: usize,
    depth: usize,
    groups: usize,
    group: Group,
) -> usize
    requires { Room (length out.old) from (length level.now) (length tree.now) width depth groups (number group) }
    ensures { GroupPut out.old from level.now tree.now width depth groups (number group) out.new result }
{
    let first = group.first_place(width);
    let a = put_number(out, from, width as u64, 4);
    let b = put_words(out, a, level, first.index(), width);
    let c = put_number(out, b, depth as u64, 4);
    put_path(out, c, tree, 0, depth, groups, group)
}

// Every group of the last level, rising, after their count.
fn put_groups(
    out: &mut [u8],
    level: &[u64],
    tree: &[u8],
    set: WidthSet,
    n: usize,
    k: usize,
) -> usize
    requires { TailBuild (widths_of set) n k level.now tree.now out.old }
    ensures { out.new ≡ tail_bytes (widths_of set) n k (words level.now) tree.now }
{
    let groups = level_groups(set, n, k, n);
    let width = level_width(set, n, k, n);
    let depth = level_depth(set, n, k, n);
    let mut at = put_number(out, 0, groups as u64, 4);
    for g in 0..groups {
        let group = Group::numbered(g);
        at = put_group(out, at, level, tree, width, depth, groups, group);
    }
    at
}

// How many bytes a tail record has.
pub fn tail_size(set: WidthSet, n: usize, k: usize) -> usize
    requires { SizesFit n k }
    ensures { result ≡ tail_size (widths_of set) n k }
{
    let groups = level_groups(set, n, k, n);
    let width = level_width(set, n, k, n);
    let depth = level_depth(set, n, k, n);
    4 + groups * (8 + 16 * width + 32 * depth)
}

// 4 and 5.
fn questions(
    level: usize,
    tree: usize,
    out: usize,
    set: WidthSet,
    n: usize,
    k: usize,
) -> Result<(), Refusal>
    ensures { answered result ≡ build_number (widths_of set) n k level tree out }
{
    size_questions(n, k)?;
    if level != 2 * level_length(n, k, n) {
        return Err(Refusal::Length);
    }
    if tree != 32 * (2 * level_groups(set, n, k, n) - 1) {
        return Err(Refusal::Length);
    }
    if out != tail_size(set, n, k) {
        return Err(Refusal::Length);
    }
    Ok(())
}

// Build a tail record from the last level and its tree, into a buffer of its size: 4, 5.
pub fn build_tail(
    out: &mut [u8],
    level: &[u64],
    tree: &[u8],
    set: WidthSet,
    n: usize,
    k: usize,
) -> Result<(), Refusal>
    ensures value { answered result ≡ build_tail_number (widths_of set) n k level.now tree.now out.old }
    ensures out_after { out.new ≡ build_tail (widths_of set) n k level.now tree.now out.old }
{
    questions(level.len(), tree.len(), out.len(), set, n, k)?;
    put_groups(out, level, tree, set, n, k);
    Ok(())
}
