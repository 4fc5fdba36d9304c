// Checking a query record. The entry is `check_query`; the other functions require.
#![tactic(auto)]

ghost use Rattle.std.specs.Prelude.{◌≡◌, ◌<◌, eqb};
ghost use Rattle.theory_laws.specs.Xor.{◌⊕◌};
ghost use Rattle.theory_laws.specs.Refusals.{answered};
ghost use Rattle.theory_field.specs.Field.{◌⊗◌};
ghost use Rattle.field_gf128.specs.Word.{word};
ghost use Rattle.theory_record.specs.Query.{pair_of, value_at, query_number, check_query};
ghost use Rattle.theory_record.specs.Lent.{fixed_by};
ghost use Rattle.tree_place.specs.Place.{index};
ghost use Rattle.record_opening.specs.helpers.Opening.{values_at};
ghost use Rattle.record_query_check.specs.helpers.Level.{a_number_at, c_number_at, level_asked, all_asked};
ghost use Rattle.record_query_check.specs.helpers.Level.{WideGroup, PairThere, ValueThere, LevelThere, LevelsThere};
ghost use Rattle.record_query_check.specs.Answer.{of_no_level, answer};

use bytes_numbers::load;
use code_level::{level_length, level_width, size_questions};
use field_gf128::{Word, add, mul};
use record_known::OPENINGS;
use record_known::levels::known_levels;
use record_opening::{opening_again, opening_known};
use record_reader::{Level, Opening, count_at, level_at, query_whole, word_at};
use theory_laws::Refusal;
use theory_record::Deposit;
use tree_place::{Place, in_group};

// Why a query record is refused: the first question whose answer is no, and the level for 16 to 26; 0 for those that are put to no level.
#[derive(Clone, Copy, Debug, PartialEq, Eq)]
pub struct Rejection {
    pub refusal: Refusal,
    pub level: u32,
}

// A question that is put to no level.
impl From<Refusal> for Rejection {
    ghost from_gives = { λ refusal r. r ≡ of_no_level refusal };

    fn from(refusal: Refusal) -> Rejection {
        Rejection { refusal, level: 0 }
    }
}

// The place q on level l + 1 that the pair of level l folds to, for a query at a position: the pair is at places 2q and 2q + 1.
pub fn pair_of(position: Place, l: usize) -> Place
    requires { l < 24 }
    ensures { index result ≡ pair_of (index position) l }
{
    position.folded(l + 1)
}

// a + r × (a + b)
fn fold_of(a: Word, b: Word, r: Word) -> Word
    ensures { word result ≡ word a ⊕ word r ⊗ (word a ⊕ word b) }
{
    add(a, mul(r, add(a, b)))
}

// Has the group that stands at a byte of the record this word, where the value of a place of its level belongs?
fn holds(s: &[u8], group_at: usize, width: usize, place: Place, w: Word) -> bool
    requires { WideGroup s.now group_at width }
    ensures { result ≡ eqb (value_at width (index place) (values_at s.now group_at)) (word w) }
{
    let j = in_group(place, width);
    let v = word_at(s, group_at + 4 + 16 * j);
    v == w
}

// 16 to 19 and 21: the group of a and b, at places 2q and 2q + 1 of level l. It may be known from the level before, whose c it holds; on
// level 0 from the first pass.
fn a_questions(
    deposit: Deposit<'_>,
    l: usize,
    q: Place,
    s: &[u8],
    at: Opening,
    root: [u8; 32],
    a: Word,
    b: Word,
    known: Option<Opening>,
) -> Result<(), Refusal>
    requires { PairThere (fixed_by deposit) l (index q) s.now at.group_at at.path_at root known }
    ensures { answered result ≡ a_number_at (fixed_by deposit.entry) l (index q) s.now at.group_at at.path_at root (word a) (word b) }
{
    let first = q.first_of_pair();
    if let Err(fault) = opening_again(deposit, l, first, s, at, root, known) {
        return Err(fault.of_a());
    }
    let w = level_width(deposit.how.set, deposit.n, deposit.k, l);
    if !holds(s, at.group_at, w, first, a) {
        return Err(Refusal::ValueOfA);
    }
    let second = q.second_of_pair();
    if !holds(s, at.group_at, w, second, b) {
        return Err(Refusal::ValueOfB);
    }
    Ok(())
}

// 22 to 25: the group of c, at place q of level l. It may be known from the first pass.
fn c_questions(
    deposit: Deposit<'_>,
    l: usize,
    q: Place,
    s: &[u8],
    at: Opening,
    root: [u8; 32],
    c: Word,
    known: Option<Opening>,
) -> Result<(), Refusal>
    requires { ValueThere (fixed_by deposit) l (index q) s.now at.group_at at.path_at root known }
    ensures { answered result ≡ c_number_at (fixed_by deposit.entry) l (index q) s.now at.group_at at.path_at root (word c) }
{
    if let Err(fault) = opening_known(deposit, l, q, s, at, root, known) {
        return Err(fault.of_c());
    }
    let w = level_width(deposit.how.set, deposit.n, deposit.k, l);
    if !holds(s, at.group_at, w, q, c) {
        return Err(Refusal::ValueOfC);
    }
    Ok(())
}

// 16 to 26: the level v that stands at a byte of the record, of which the level before may have opened the group of a and b, the first pass that of c.
fn level_questions(
    deposit: Deposit<'_>,
    position: Place,
    challenges: &[u64],
    roots: &[u8],
    l: usize,
    s: &[u8],
    at: usize,
    v: Level,
    known: Option<Opening>,
    c_known: Option<Opening>,
) -> Result<(), Refusal>
    requires { LevelThere (fixed_by deposit) (index position) challenges.now roots.now l s.now at v known c_known }
    ensures { answered result ≡ level_asked (fixed_by deposit.entry) (index position) challenges.now roots.now l s.now at }
{
    let q = pair_of(position, l);
    let a = word_at(s, at);
    let b = word_at(s, at + 16);
    let c = word_at(s, at + 32);
    let ra = load(roots, 32 * l);
    a_questions(deposit, l, q, s, v.a, ra, a, b, known)?;
    let rc = load(roots, 32 * (l + 1));
    c_questions(deposit, l + 1, q, s, v.c, rc, c, c_known)?;
    let r = field_words::get(challenges, l);
    let f = fold_of(a, b, r);
    if f == c {
        return Ok(());
    }
    Err(Refusal::Fold)
}

// 16 to 26, level by level, of a record that reads whole and has n levels.
fn check_levels(
    deposit: Deposit<'_>,
    position: Place,
    challenges: &[u64],
    roots: &[u8],
    s: &[u8],
    ways: [Option<Opening>; OPENINGS],
) -> Result<(), Rejection>
    requires { LevelsThere (fixed_by deposit) (index position) challenges.now roots.now s.now ways }
    ensures { answer result ≡ all_asked (fixed_by deposit.entry) (index position) challenges.now roots.now s.now }
{
    let mut at: usize = 4;
    let mut known = ways[0];
    for l in 0..deposit.n {
        let v = level_at(s, at).unwrap();
        if let Err(refusal) = level_questions(
            deposit,
            position,
            challenges,
            roots,
            l,
            s,
            at,
            v,
            known,
            ways[l + 1],
        ) {
            return Err(Rejection {
                refusal,
                level: l as u32,
            });
        }
        known = Some(v.c);
        at = v.next;
    }
    Ok(())
}

// 4, 5, 7, 11, 14 and 15.
fn query_questions(
    deposit: Deposit<'_>,
    position: Place,
    challenges: &[u64],
    roots: &[u8],
    s: &[u8],
) -> Result<(), Refusal>
    ensures { answered result ≡ query_number (fixed_by deposit.entry) (index position) challenges.now roots.now s.now }
{
    let n = deposit.n;
    size_questions(n, deposit.k)?;
    if challenges.len() != 2 * n {
        return Err(Refusal::Length);
    }
    if roots.len() != 32 * (n + 1) {
        return Err(Refusal::Length);
    }
    if deposit.base.len() > 200 {
        return Err(Refusal::Domain);
    }
    if position.index() >= level_length(n, deposit.k, 0) {
        return Err(Refusal::Place);
    }
    if !query_whole(s) {
        return Err(Refusal::NotARecord);
    }
    if count_at(s, 0) != n {
        return Err(Refusal::LevelCount);
    }
    Ok(())
}

// Check a query record for a position, lent n challenges and n + 1 roots, level 0 first: 4, 5, 7, 11, 14, 15, then level by level 16 to 26.
pub fn check_query(
    deposit: Deposit<'_>,
    position: Place,
    challenges: &[u64],
    roots: &[u8],
    s: &[u8],
) -> Result<(), Rejection>
    ensures { answer result ≡ check_query (fixed_by deposit.entry) (index position) challenges.now roots.now s.now }
{
    query_questions(deposit, position, challenges, roots, s)?;
    let ways = known_levels(deposit, position, roots, s);
    check_levels(deposit, position, challenges, roots, s, ways)
}
