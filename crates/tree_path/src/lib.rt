// Authentication paths, after magnetar-hash: the path of a place, read off a lent tree, and the root that a group and a path lead to. The
// entries are `open` and `root_of_path`.
#![tactic(auto)]

ghost use Rattle.std.specs.Prelude.{◌≡◌, length};
ghost use Rattle.theory_laws.specs.Refusals.{answered};
ghost use Rattle.theory_merkle.specs.Numbers.{open_number};
ghost use Rattle.hash_hasher.specs.Whole.{digested};
ghost use Rattle.tree_place.specs.Place.{index};
ghost use Rattle.tree_path.specs.Answers.{opened_into, root_answer};

use theory_laws::Refusal;
use tree_digest::Hashing;
use tree_place::{Place, Shape, group_of};
use tree_walk::{climb_path, put_path};

// The path of the group of a place, read off a lent tree, into a buffer of log2(count / width) digests.
pub fn open(shape: Shape, place: Place, tree: &[u8], path: &mut [u8]) -> Result<(), Refusal>
    ensures value { answered result ≡ open_number shape.count shape.width (index place) (length tree.now) (length path.old) }
    ensures path_after { path.new ≡ opened_into shape.count shape.width (index place) tree.now path.old }
{
    shape.open_questions(place, tree.len(), path.len())?;
    let g = group_of(place, shape.width);
    put_path(path, 0, tree, 0, shape.depth(), shape.groups(), g);
    Ok(())
}

// The root that the group of a place and a path lead to.
pub fn root_of_path(
    hashing: Hashing,
    shape: Shape,
    place: Place,
    values: &[u64],
    path: &[u8],
) -> Result<[u8; 32], Refusal>
    ensures { digested result
        ≡ root_answer hashing.entry.mode hashing.entry.domain.now shape.count shape.width (index place) values.now path.now }
{
    shape.root_questions(hashing.domain.len(), place, values.len(), path.len())?;
    let g = group_of(place, shape.width);
    let leaf = hashing.leaf_of(shape, g, values);
    Ok(climb_path(hashing, g, leaf, path, 0, shape.depth()))
}
