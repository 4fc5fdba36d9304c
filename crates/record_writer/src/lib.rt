// What records are written of: groups of values and paths, each after its count, put into a lent buffer. These are helpers for the crates
// above: each requires that its bytes fit.
#![tactic(auto)]

ghost use Rattle.std.specs.Prelude.{length};
ghost use Rattle.tree_place.specs.Place.{number};
ghost use Rattle.record_writer.specs.helpers.Groups.{ValuesPut, PathPut, ValuesRoom, PathRoom};

use bytes_numbers::put_number;
use field_bytes::put_words;
use tree_place::Group;
use tree_walk::put_path;

// The values of a group, after their count, of a level that begins at a word of the lent levels.
pub fn put_values(
    out: &mut [u8],
    from: usize,
    levels: &[u64],
    words_at: usize,
    width: usize,
    group: Group,
) -> usize
    requires { ValuesRoom (length out.old) from (length levels.now) words_at width (number group) }
    ensures { ValuesPut out.old from levels.now words_at width (number group) out.new result }
{
    let start = words_at + width * group.number();
    let at = put_number(out, from, width as u64, 4);
    put_words(out, at, levels, start, width)
}

// The path of a group, as `put_path` puts it, after its count.
pub fn put_digests(
    out: &mut [u8],
    from: usize,
    trees: &[u8],
    tree_at: usize,
    depth: usize,
    groups: usize,
    group: Group,
) -> usize
    requires { PathRoom (length out.old) from (length trees.now) tree_at depth groups (number group) }
    ensures { PathPut out.old from trees.now tree_at depth groups (number group) out.new result }
{
    let at = put_number(out, from, depth as u64, 4);
    put_path(out, at, trees, tree_at, depth, groups, group)
}
