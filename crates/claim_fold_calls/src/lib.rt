// A list of fold calls on a committed codeword, each on the codeword and the list as the last done call left them, with every level kept: after
// code.rs and eval.rs. These are helpers for the crates above: each requires that what it is lent has its length.
#![tactic(auto)]

ghost use Rattle.std.specs.Prelude.{◌≡◌, ◌*◌, ◌<◌, length};
ghost use Rattle.theory_laws.specs.Table.{tab};
ghost use Rattle.theory_field.specs.Words.{words};
ghost use Rattle.claim_fold_calls.specs.Lent.{call_at, lent_calls};
ghost use Rattle.claim_fold_calls.specs.helpers.Laid.{asked, CallsLent, CallsRoom, CallLent, Moved, CallsLeft};

use code_level::level_length;
use code_levels::{fold_level, lay};
use field_gf128::Word;
use field_words::clear;

// A fold call as it is lent: its n, k, original n and variable, the length of the room for its answer, in halves, and its challenge.
#[derive(Clone, Copy, Debug, PartialEq, Eq)]
pub struct FoldCall {
    pub n: usize,
    pub k: usize,
    pub original: usize,
    pub var: usize,
    pub room: usize,
    pub by: Word,
}

// Call i of a lent list: five numbers and a challenge each.
fn call_at(calls: &[usize], challenges: &[u64], i: usize) -> FoldCall
    requires { CallsLent (length calls.now) (length challenges.now) × (5 * i < length calls.now) }
    ensures { asked result ≡ call_at calls.now (words challenges.now) i }
{
    let from = 5 * i;
    let by = field_words::get(challenges, i);
    FoldCall {
        n: calls[from],
        k: calls[from + 1],
        original: calls[from + 2],
        var: calls[from + 3],
        room: calls[from + 4],
        by,
    }
}

// Where a list of calls stands: how many are done, and where the codeword starts in the levels, in halves.
#[derive(Clone, Copy, Debug, PartialEq, Eq)]
pub struct Progress {
    pub done: usize,
    pub from: usize,
}

// One call on level l below n, the codeword as the last done call left it, with the list at the front of `coordinates`: a done one is laid as the next
// level, its coordinate dropped, and its challenge kept. A call with more room than `half` has is a call that `fold` refuses: no level's fold is so long.
fn call(
    n: usize,
    k: usize,
    at: Progress,
    x: FoldCall,
    levels: &mut [u64],
    coordinates: &mut [usize],
    half: &mut [u64],
    kept: &mut [u64],
) -> Progress
    requires { CallLent n k at (length levels.old) (length coordinates.old) (length half.old) (length kept.old) }
    ensures { Moved n k at (asked x) levels coordinates kept result }
{
    let done = at.done;
    let from = at.from;
    let room = x.room;
    let r = x.by;
    if room > half.len() {
        return at;
    }
    let left = n - done;
    let folded = fold_level(
        n,
        k,
        done,
        from,
        x.n,
        x.k,
        x.original,
        x.var,
        r,
        room,
        &mut coordinates[..left],
        levels,
        half,
    );
    if folded.is_err() {
        return at;
    }
    let to = from + 2 * level_length(n, k, done);
    lay(n, k, done + 1, to, half, levels);
    field_words::put(kept, done, r);
    Progress {
        done: done + 1,
        from: to,
    }
}

// The calls of a lent list, in order until n are done, on the codeword that stands as level 0 and the list in `coordinates`: how many are done. The list
// that is left stands at the front of `coordinates`, zeros behind it. `half`, room for a fold, is left with zeros.
pub fn fold_calls(
    n: usize,
    k: usize,
    calls: &[usize],
    challenges: &[u64],
    levels: &mut [u64],
    coordinates: &mut [usize],
    half: &mut [u64],
    kept: &mut [u64],
) -> usize
    requires { CallsRoom n k levels coordinates half kept calls challenges }
    ensures calls_left { CallsLeft n k (lent_calls calls.now (words challenges.now)) levels coordinates kept result }
    ensures half_after { half.new ≡ tab (length half.old) (λ v. 0) }
{
    let mut at = Progress { done: 0, from: 0 };
    for i in 0..calls.len() / 5 {
        if at.done == n {
            break;
        }
        let x = call_at(calls, challenges, i);
        at = call(n, k, at, x, levels, coordinates, half, kept);
    }
    clear(half);
    at.done
}
