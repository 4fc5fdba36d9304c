// The levels of a codeword, end to end in one buffer: a level folded, and the next one laid behind it. These are helpers for the crates above: each
// requires that what it is lent has its length.
#![tactic(auto)]

ghost use Rattle.std.specs.Prelude.{◌≡◌, ◌*◌, ◌<◌, ◌≤◌, length, take, drop};
ghost use Rattle.theory_laws.specs.Questions.{on_done};
ghost use Rattle.theory_laws.specs.Refusals.{answered};
ghost use Rattle.theory_field.specs.Words.{words};
ghost use Rattle.field_gf128.specs.Word.{word};
ghost use Rattle.theory_code.specs.Questions.{fold_number};
ghost use Rattle.code_codeword.specs.Answers.{folded, folded_of, dropped_of};
ghost use Rattle.theory_record.specs.Widths.{level_length};
ghost use Rattle.code_levels.specs.helpers.Levels.{laid, level_folded, LevelLent};

use code_level::level_length;
use field_gf128::Word;
use field_words::copy;
use theory_laws::Refusal;

// What `fold` answers to a call on level l, which starts at the half `from`, with its list: a call of any n, k and original n, cn, ck and original, at any
// variable, by r, lent the first `room` halves of `half`.
pub fn fold_level(
    n: usize,
    k: usize,
    l: usize,
    from: usize,
    cn: usize,
    ck: usize,
    original: usize,
    var: usize,
    r: Word,
    room: usize,
    coordinates: &mut [usize],
    levels: &[u64],
    half: &mut [u64],
) -> Result<usize, Refusal>
    requires { LevelLent n k l from (length levels.now) (length half.old) × (room ≤ length half.old) }
    ensures value { folded result ≡ folded_of cn (fold_number cn ck original var coordinates.old (2 * level_length n k l) room) }
    ensures coordinates_after { coordinates.new ≡ on_done (answered result) (dropped_of var coordinates.old) coordinates.old }
    ensures half_after { words (take room half.new)
        ≡ on_done (answered result) (level_folded n k l var (word r) levels.now) (words (take room half.old)) }
    ensures half_unchanged { drop room half.new ≡ drop room half.old }
{
    let to = from + 2 * level_length(n, k, l);
    code_codeword::fold(
        cn,
        ck,
        original,
        var,
        r,
        coordinates,
        &levels[from..to],
        &mut half[..room],
    )
}

// The front of `half` laid as level l, which starts at the half `from`.
pub fn lay(n: usize, k: usize, l: usize, from: usize, half: &[u64], levels: &mut [u64])
    requires { LevelLent n k l from (length levels.old) (length half.now) × (0 < l) }
    ensures { words levels.new ≡ laid n k l (words (take (2 * level_length n k l) half.now)) (words levels.old) }
{
    let room = 2 * level_length(n, k, l);
    let to = from + room;
    copy(&half[..room], &mut levels[from..to]);
}
