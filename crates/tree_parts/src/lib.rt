// A tree made in parts, for callers that divide the work: the leaves of a run of groups, and the parents of a run of pairs, each into a lent
// buffer of its own. A refused call changes no lent byte. The entries are `leaves` and `parents`; the other functions require.
#![tactic(auto)]

ghost use Rattle.std.specs.Prelude.{◌≡◌, ◌*◌, length};
ghost use Rattle.theory_laws.specs.Refusals.{answered};
ghost use Rattle.theory_merkle.specs.PartQuestions.{leaves_number, parents_number};
ghost use Rattle.bytes_numbers.specs.helpers.Put.{Put};
ghost use Rattle.tree_place.specs.helpers.Yes.{ParentsYes};
ghost use Rattle.tree_parts.specs.Parts.{parents_of, leaves_into, parents_into};
ghost use Rattle.tree_parts.specs.helpers.Some.{SomeFit, some_parents};
ghost use Rattle.theory_blake3.specs.Modes.{under};

use theory_laws::Refusal;
use tree_digest::Hashing;
use tree_place::{Shape, parents_questions};

// The leaves of a tree, from group `first` on, as many as the buffer has room for. Lent are all values. It refuses a domain of more than 255
// bytes with 7, a value count with 8, a width with 9 and both with 10 where no tree has them, groups that are not all the tree's with 11, and
// lengths that are not theirs with 5.
pub fn leaves(
    hashing: Hashing,
    shape: Shape,
    first: usize,
    values: &[u64],
    out: &mut [u8],
) -> Result<(), Refusal>
    ensures value { answered result
        ≡ leaves_number (length hashing.entry.domain.now) shape.count shape.width first (length values.now) (length out.old) }
    ensures out_after { out.new
        ≡ leaves_into hashing.entry.mode hashing.entry.domain.now shape.count shape.width first values.now out.old }
{
    shape.leaves_questions(hashing.domain.len(), first, values.len(), out.len())?;
    let width = shape.width;
    let groups = out.len() / 32;
    let from = 2 * (width * first);
    let end = from + 2 * (width * groups);
    tree_build::put_leaves(hashing, out, shape, first, groups, &values[from..end]);
    Ok(())
}

// How many parents are made at once.
const AT_ONCE: usize = 64;

// At most AT_ONCE parents, put from a place on: they are made in a buffer in which they stand right after their children. The place after
// them.
fn some_parents(
    hashing: Hashing,
    out: &mut [u8],
    to: usize,
    level: usize,
    some: usize,
    children: &[u8],
) -> usize
    requires { SomeFit (length hashing.domain.now) some (length children.now) to (length out.old) }
    ensures { Put out.old to (32 * some) (some_parents (under hashing.entry.mode) hashing.entry.domain.now level some children.now)
        out.new result }
{
    let mut both = [0u8; 96 * AT_ONCE];
    bytes_numbers::put(&mut both, 0, children);
    tree_build::put_parents(hashing, &mut both, level, 0, some);
    bytes_numbers::put(out, to, &both[64 * some..96 * some])
}

// The parents, once the questions are answered.
fn put_parents(hashing: Hashing, out: &mut [u8], level: usize, children: &[u8])
    requires { ParentsYes (length hashing.domain.now) (length children.now) (length out.old) }
    ensures { out.new ≡ parents_of (under hashing.entry.mode) hashing.entry.domain.now level children.now }
{
    let all = out.len() / 32;
    for done in (0..all).step_by(AT_ONCE) {
        let some = (all - done).min(AT_ONCE);
        let from = 64 * done;
        let end = from + 64 * some;
        some_parents(hashing, out, 32 * done, level, some, &children[from..end]);
    }
}

// The parents of a level's digests, two by two, those of the leaves being level 0. It refuses lengths that are not those of two digests for
// each that there is room for with 5, and a domain of more than 255 bytes with 7.
pub fn parents(
    hashing: Hashing,
    level: usize,
    children: &[u8],
    out: &mut [u8],
) -> Result<(), Refusal>
    ensures value { answered result ≡ parents_number (length hashing.entry.domain.now) (length children.now) (length out.old) }
    ensures out_after { out.new ≡ parents_into hashing.entry.mode hashing.entry.domain.now level children.now out.old }
{
    parents_questions(hashing.domain.len(), children.len(), out.len())?;
    put_parents(hashing, out, level, children);
    Ok(())
}
