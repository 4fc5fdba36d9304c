// The levels of a commitment: their widths, lengths, depths and domains. `fold_tree_width` and the functions of `domain` are entries; the
// other functions serve the crates above and require.
#![tactic(auto)]

pub mod domain;

ghost use Rattle.std.specs.Prelude.{◌≡◌, suc, ◌+◌, ◌*◌, ◌≤◌, ◌<◌, length};
ghost use Rattle.theory_laws.specs.Refusals.{answered};
ghost use Rattle.bytes_numbers.specs.helpers.Put.{Put};
ghost use Rattle.theory_record.specs.Widths.{widths_of, width_for, level_length, level_width, level_groups, level_depth};
ghost use Rattle.theory_record.specs.Domain.{digit, decimal, level_domain};
ghost use Rattle.theory_record.specs.Build.{levels_length, tree_start};
ghost use Rattle.theory_record.proofs.Ranges.{SizesFit};
ghost use Rattle.code_level.specs.Sizes.{size_number};

use bytes_numbers::put;
use theory_laws::Refusal;
use theory_record::WidthSet;
use tree_place::Shape;

// How many bytes the longest level domain has, `domain_room` of the definitions: a base domain of 200, "/level/" and two digits.
pub const DOMAIN: usize = 209;

// How many values the widest group of either set has: `widest` of the definitions.
pub const WIDEST: usize = 32;

// The widths of a set: `width` from the length `threshold` on.
#[derive(Clone, Copy, Debug, PartialEq, Eq)]
struct Widths {
    threshold: usize,
    width: usize,
}

// Those of a set.
fn widths_of(set: WidthSet) -> Widths
    ensures threshold { result.threshold ≡ (widths_of set).threshold }
    ensures width { result.width ≡ (widths_of set).width }
{
    match set {
        WidthSet::Present => Widths {
            threshold: 16,
            width: 8,
        },
        WidthSet::Wide => Widths {
            threshold: 64,
            width: 32,
        },
    }
}

// The width of the groups of a tree over this many values: the set's from its threshold on, 2 from length 2, else 1.
pub fn fold_tree_width(set: WidthSet, len: usize) -> usize
    ensures { result ≡ width_for (widths_of set) len }
{
    let widths = widths_of(set);
    if len >= widths.threshold {
        return widths.width;
    }
    if len >= 2 {
        return 2;
    }
    1
}

// Question 4, for records: is n from 1 to 20 and k at most 4?
pub fn size_questions(n: usize, k: usize) -> Result<(), Refusal>
    ensures { answered result ≡ size_number n k }
{
    if n > 20 {
        return Err(Refusal::Parameters);
    }
    if k > 4 {
        return Err(Refusal::Parameters);
    }
    if n < 1 {
        return Err(Refusal::Parameters);
    }
    Ok(())
}

// How many values level l has.
pub fn level_length(n: usize, k: usize, l: usize) -> usize
    requires { (n + k ≤ 24) × (l ≤ n) }
    ensures { result ≡ level_length n k l }
{
    1 << (n + k - l)
}

// The width of its groups.
pub fn level_width(set: WidthSet, n: usize, k: usize, l: usize) -> usize
    requires { (n + k ≤ 24) × (l ≤ n) }
    ensures { result ≡ level_width (widths_of set) n k l }
{
    fold_tree_width(set, level_length(n, k, l))
}

// How many groups it has.
pub fn level_groups(set: WidthSet, n: usize, k: usize, l: usize) -> usize
    requires { (n + k ≤ 24) × (l ≤ n) }
    ensures { result ≡ level_groups (widths_of set) n k l }
{
    level_length(n, k, l) / level_width(set, n, k, l)
}

// How many digests a path of its tree has.
pub fn level_depth(set: WidthSet, n: usize, k: usize, l: usize) -> usize
    requires { (n + k ≤ 24) × (l ≤ n) }
    ensures { result ≡ level_depth (widths_of set) n k l }
{
    let shape = Shape {
        count: level_length(n, k, l),
        width: level_width(set, n, k, l),
    };
    shape.depth()
}

// How many words the levels have: twice as many as the first, less the last.
pub fn levels_length(n: usize, k: usize) -> usize
    requires { SizesFit n k }
    ensures { result ≡ levels_length n k }
{
    2 * level_length(n, k, 0) - level_length(n, k, n)
}

// How many bytes their trees have.
pub fn trees_size(set: WidthSet, n: usize, k: usize) -> usize
    requires { SizesFit n k }
    ensures { result ≡ 32 * tree_start (widths_of set) n k (suc n) }
{
    let mut digests: usize = 0;
    for l in 0..n + 1 {
        digests += 2 * level_groups(set, n, k, l) - 1;
    }
    32 * digests
}

// The ASCII code of a digit.
fn digit_of(d: usize) -> u8
    requires { d < 10 }
    ensures { result ≡ digit d }
{
    b'0' + d as u8
}

// A number below 100 in decimal, without leading zeros.
fn put_decimal(out: &mut [u8], from: usize, x: usize) -> usize
    requires { (x < 100) × (from + length (decimal x) ≤ length out.old) }
    ensures { Put out.old from (length (decimal x)) (decimal x) out.new result }
{
    if x < 10 {
        out[from] = digit_of(x);
        return from + 1;
    }
    out[from] = digit_of(x / 10);
    out[from + 1] = digit_of(x % 10);
    from + 2
}

// The domain of level l, put at the front of a buffer with room for it: the base domain, "/level/", the level in decimal. How long it is.
pub fn put_domain(out: &mut [u8], base: &[u8], l: usize) -> usize
    requires { (l < 100) × (length (level_domain base.now l) ≤ length out.old) }
    ensures { Put out.old 0 (length (level_domain base.now l)) (level_domain base.now l) out.new result }
{
    let a = put(out, 0, base);
    let b = put(out, a, b"/level/");
    put_decimal(out, b, l)
}

// The same in a buffer with room for any level's.
pub fn level_domain(out: &mut [u8], base: &[u8], l: usize) -> usize
    requires { (l < 100) × (length base.now + 9 ≤ length out.old) }
    ensures { Put out.old 0 (length (level_domain base.now l)) (level_domain base.now l) out.new result }
{
    put_domain(out, base, l)
}
