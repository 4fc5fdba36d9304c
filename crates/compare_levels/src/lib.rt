// The messages nearest the root in which two accepted query records differ, at the lowest level that differs, path a before path c. These
// are helpers for the crate above: each requires.
#![tactic(auto)]

ghost use Rattle.theory_compare.specs.Compare.{records_found};
ghost use Rattle.compare_pick.specs.helpers.Chains.{PickedIn};
ghost use Rattle.tree_place.specs.Place.{index};
ghost use Rattle.compare_levels.specs.helpers.Levels.{places_found, LevelsSized, Comparable};
ghost use Rattle.theory_record.specs.Lent.{fixed_by};

use compare_opening::pick_opening;
use record_query_check::pair_of;
use record_reader::{Level, level_at};
use theory_record::Deposit;
use tree_place::Place;

// Of level l of two records, as it was read of each: path a before path c, which is of the next level. The pair folds to place q there.
fn pick_level<'a>(
    deposit: Deposit<'a>,
    l: usize,
    q: Place,
    s: &[u8],
    x: Level,
    t: &[u8],
    y: Level,
    first: &mut [u8],
    second: &mut [u8],
) -> Option<usize>
    requires { LevelsSized (fixed_by deposit) l (index q) s.now x t.now y first.old second.old }
    ensures { PickedIn (places_found (fixed_by deposit.entry) l (index q) s.now x t.now y) first second result }
{
    let a = q.first_of_pair();
    if let Some(m) = pick_opening(deposit, l, a, s, x.a, t, y.a, first, second) {
        return Some(m);
    }
    pick_opening(deposit, l + 1, q, s, x.c, t, y.c, first, second)
}

// Level by level, the lowest first.
pub fn pick_levels<'a>(
    deposit: Deposit<'a>,
    position: Place,
    s: &[u8],
    t: &[u8],
    first: &mut [u8],
    second: &mut [u8],
) -> Option<usize>
    requires { Comparable (fixed_by deposit) (index position) s.now t.now first.old second.old }
    ensures { PickedIn (records_found (fixed_by deposit.entry) (index position) s.now t.now) first second result }
{
    let mut i: usize = 4;
    let mut j: usize = 4;
    for l in 0..deposit.n {
        let x = level_at(s, i).unwrap();
        let y = level_at(t, j).unwrap();
        let q = pair_of(position, l);
        if let Some(m) = pick_level(deposit, l, q, s, x, t, y, first, second) {
            return Some(m);
        }
        i = x.next;
        j = y.next;
    }
    None
}
