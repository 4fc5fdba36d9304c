// The first pass over a tail record: what is known of the openings of its groups, all of them of the last level. The functions require.
ghost use Rattle.std.specs.Prelude.{◌+◌, ◌<◌, ◌≤◌, length};
ghost use Rattle.theory_record.specs.Lent.{fixed_by};
ghost use Rattle.record_known.specs.helpers.Lanes.{InRange};
ghost use Rattle.record_known.specs.helpers.Known.{LaneAt, EndsAt, groups, GroupsLent, FourGroups, GroupsKnown};

use crate::{NO_OPENING, OPENINGS, four_ends, lane_of, put_domains, settle};
use code_level::level_width;
use record_reader::{Opening, group_at};
use theory_record::Deposit;
use tree_four_ways::Lane;
use tree_place::Group;

// The openings of this many groups.
fn group_openings(count: usize, s: &[u8]) -> [Opening; OPENINGS]
    requires { (count ≤ 21) × (4 ≤ length s.now) }
{
    let mut openings = [NO_OPENING; OPENINGS];
    let mut at: usize = 4;
    for g in 0..count {
        let Some(v) = group_at(s, at) else {
            return openings;
        };
        openings[g] = v.opening;
        at = v.next;
    }
    openings
}

// The lane of group g.
fn group_lane(
    deposit: Deposit<'_>,
    s: &[u8],
    openings: [Opening; OPENINGS],
    g: usize,
) -> Option<Lane>
    requires { (InRange (fixed_by deposit) deposit.n) × (g < 21) }
    ensures { LaneAt (fixed_by deposit.entry) (groups (fixed_by deposit.entry)) s.now openings g result }
{
    let width = level_width(deposit.how.set, deposit.n, deposit.k, deposit.n);
    let first = Group::numbered(g).first_place(width);
    lane_of(deposit, deposit.n, first, s, openings[g])
}

// Where four groups from g on lead to.
fn group_ends(
    deposit: Deposit<'_>,
    s: &[u8],
    openings: [Opening; OPENINGS],
    g: usize,
) -> [Option<[u8; 32]>; 4]
    requires { (InRange (fixed_by deposit) deposit.n) × (g + 3 < 21) }
    ensures { EndsAt (fixed_by deposit.entry) (groups (fixed_by deposit.entry)) s.now openings (λ j. g + j) result }
{
    let mut domains = [0u8; 1024];
    let size = put_domains(&mut domains, deposit.base, deposit.n, deposit.n);
    let a = group_lane(deposit, s, openings, g);
    let b = group_lane(deposit, s, openings, g + 1);
    let c = group_lane(deposit, s, openings, g + 2);
    let d = group_lane(deposit, s, openings, g + 3);
    four_ends(deposit.how.mode, &domains, size, s, [a, b, c, d])
}

// What is known after four groups from g on.
fn four_groups(
    deposit: Deposit<'_>,
    root: [u8; 32],
    s: &[u8],
    openings: [Opening; OPENINGS],
    g: usize,
    known: [Option<Opening>; OPENINGS],
) -> [Option<Opening>; OPENINGS]
    requires { FourGroups (fixed_by deposit) root s.now g known }
    ensures { GroupsKnown (fixed_by deposit.entry) root s.now result }
{
    let ends = group_ends(deposit, s, openings, g);
    let mut ways = known;
    for j in 0..4 {
        // a variable first: the borrow checker does not cover a call's result laid straight in a local that holds an array
        let more = settle(ways, openings, g + j, ends[j], root);
        ways = more;
    }
    ways
}

// What is known of the openings of a tail record's groups, of which there are this many: of fours of them.
pub fn known_groups(
    deposit: Deposit<'_>,
    root: [u8; 32],
    s: &[u8],
    count: usize,
) -> [Option<Opening>; OPENINGS]
    requires { GroupsLent (fixed_by deposit) s.now count }
    ensures { GroupsKnown (fixed_by deposit.entry) root s.now result }
{
    let openings = group_openings(count, s);
    let mut ways = [None; OPENINGS];
    for four in 0..count / 4 {
        // a variable first, as above
        let more = four_groups(deposit, root, s, openings, 4 * four, ways);
        ways = more;
    }
    ways
}
