// Query and tail records built and checked, and two query records compared.
ghost use Rattle.std.specs.Prelude.{◌≡◌};
ghost use Rattle.field_gf128.specs.Word.{word};
ghost use Rattle.export_dequmlo.specs.Answers.{checked, compared};
ghost use Rattle.export_dequmlo.specs.Records.{query_number, query_left, query_answer, tail_number, tail_left, tail_answer};
ghost use Rattle.export_dequmlo.specs.Records.{compared_answer, first_after, second_after};

use export_dequmlo::keys::Key;
use export_dequmlo::records::{Checked, Compared};
use field_gf128::Word;

// The query record at a position, from all levels and their trees end to end: 4, 5, 11.
#[unsafe(no_mangle)]
pub extern "C" fn dequmlo_build_query(
    out: &mut [u8],
    levels: &[u64],
    trees: &[u8],
    widths: u32,
    n: usize,
    k: usize,
    position: usize,
) -> u32
    ensures value { result ≡ query_number out levels trees widths n k position }
    ensures out_after { out.new ≡ query_left out levels trees widths n k position }
{
    export_dequmlo::records::dequmlo_build_query(out, levels, trees, widths, n, k, position)
}

// A query record checked: 4, 5, 7, 11, 14 to 26.
#[unsafe(no_mangle)]
pub extern "C" fn dequmlo_check_query(
    key: Key,
    base: &[u8],
    widths: u32,
    n: usize,
    k: usize,
    position: usize,
    challenges: &[u64],
    roots: &[u8],
    bytes: &[u8],
) -> Checked
    ensures { checked result ≡ query_answer key base widths n k position challenges roots bytes }
{
    export_dequmlo::records::dequmlo_check_query(
        key, base, widths, n, k, position, challenges, roots, bytes,
    )
}

// The tail record of the last level and its tree: 4, 5.
#[unsafe(no_mangle)]
pub extern "C" fn dequmlo_build_tail(
    out: &mut [u8],
    level: &[u64],
    tree: &[u8],
    widths: u32,
    n: usize,
    k: usize,
) -> u32
    ensures value { result ≡ tail_number out level tree widths n k }
    ensures out_after { out.new ≡ tail_left out level tree widths n k }
{
    export_dequmlo::records::dequmlo_build_tail(out, level, tree, widths, n, k)
}

// A tail record checked against the last level's root and the terminal claim: 4, 5, 7, 14, 27 to 31.
#[unsafe(no_mangle)]
pub extern "C" fn dequmlo_check_tail(
    key: Key,
    base: &[u8],
    widths: u32,
    n: usize,
    k: usize,
    root: &[u8],
    claim: Word,
    bytes: &[u8],
) -> u32
    ensures { result ≡ tail_answer key base widths n k root (word claim) bytes }
{
    export_dequmlo::records::dequmlo_check_tail(key, base, widths, n, k, root, claim, bytes)
}

// Two query records of one position compared: 4, 5, 7, 11, 32, 33. Where they differ, the two messages nearest the root that differ go into
// the buffers, of 1,024 bytes each.
#[unsafe(no_mangle)]
pub extern "C" fn dequmlo_compare(
    key: Key,
    base: &[u8],
    widths: u32,
    n: usize,
    k: usize,
    position: usize,
    challenges: &[u64],
    roots: &[u8],
    first: &[u8],
    second: &[u8],
    one: &mut [u8],
    two: &mut [u8],
) -> Compared
    ensures result_value { compared result ≡ compared_answer key base widths n k position challenges roots first second one two }
    ensures one_after { one.new ≡ first_after key base widths n k position challenges roots first second one two }
    ensures two_after { two.new ≡ second_after key base widths n k position challenges roots first second one two }
{
    export_dequmlo::records::dequmlo_compare(
        key, base, widths, n, k, position, challenges, roots, first, second, one, two,
    )
}
