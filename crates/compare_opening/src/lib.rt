// The messages nearest the root in which two groups and paths for one place of a level differ. These are helpers for the crates above: each
// requires.
#![tactic(auto)]

ghost use Rattle.std.specs.Prelude.{◌≡◌, length};
ghost use Rattle.theory_laws.specs.Lists.{stored};
ghost use Rattle.theory_record.specs.Domain.{level_domain};
ghost use Rattle.record_opening.specs.helpers.Opening.{Sized};
ghost use Rattle.tree_place.specs.Place.{index};
ghost use Rattle.compare_opening.specs.helpers.Messages.{chain_at, found_at, BothSized, chain_buffer};
ghost use Rattle.compare_pick.specs.helpers.Chains.{PickedIn};
ghost use Rattle.theory_record.specs.Lent.{fixed_by};

use code_level::{DOMAIN, WIDEST, level_depth, level_domain, level_length, level_width};
use compare_chain::put_chain;
use compare_pick::pick_last;
use record_reader::Opening;
use theory_record::Deposit;
use tree_digest::Hashing;
use tree_place::{Place, Shape};

// How many bytes a buffer for a chain of messages has: `chain_buffer` of the conditions, 9,098.
const CHAIN: usize = 97 + DOMAIN + 16 * WIDEST + 24 * (136 + DOMAIN);

// The messages from the group of a place of level l along the path, as an opening of a record has them, end to end in a buffer. The length of
// the level's domain.
fn level_chain<'a>(
    out: &mut [u8],
    deposit: Deposit<'a>,
    l: usize,
    place: Place,
    s: &[u8],
    at: Opening,
) -> usize
    requires { (Sized (fixed_by deposit) l s.now at.group_at at.path_at) × (length out.old ≡ chain_buffer) }
    ensures value { result ≡ length (level_domain deposit.entry.base.now l) }
    ensures out_after { out.new ≡ stored out.old 0 (chain_at (fixed_by deposit.entry) l (index place) s.now at.group_at at.path_at) }
{
    let set = deposit.how.set;
    let mut domain = [0u8; DOMAIN];
    let d = level_domain(&mut domain, deposit.base, l);
    let shape = Shape {
        count: level_length(deposit.n, deposit.k, l),
        width: level_width(set, deposit.n, deposit.k, l),
    };
    let hashing = Hashing {
        mode: deposit.how.mode,
        domain: &domain[..d],
    };
    let depth = level_depth(set, deposit.n, deposit.k, l);
    put_chain(
        hashing,
        out,
        shape,
        place,
        s,
        at.group_at + 4,
        at.path_at + 4,
        depth,
    );
    d
}

// The messages in which two openings for a place of level l differ, each of a record.
pub fn pick_opening<'a>(
    deposit: Deposit<'a>,
    l: usize,
    place: Place,
    s: &[u8],
    of_s: Opening,
    t: &[u8],
    of_t: Opening,
    first: &mut [u8],
    second: &mut [u8],
) -> Option<usize>
    requires { BothSized (fixed_by deposit) l s.now of_s.group_at of_s.path_at t.now of_t.group_at of_t.path_at first.old second.old }
    ensures { PickedIn (found_at (fixed_by deposit.entry) l (index place) s.now of_s.group_at of_s.path_at t.now of_t.group_at of_t.path_at)
        first second result }
{
    let set = deposit.how.set;
    let mut a = [0u8; CHAIN];
    let d = level_chain(&mut a, deposit, l, place, s, of_s);
    let mut b = [0u8; CHAIN];
    level_chain(&mut b, deposit, l, place, t, of_t);
    let width = level_width(set, deposit.n, deposit.k, l);
    let depth = level_depth(set, deposit.n, deposit.k, l);
    pick_last(&a, &b, 97 + d + 16 * width, 136 + d, depth, first, second)
}
