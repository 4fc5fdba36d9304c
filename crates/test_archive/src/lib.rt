// What the comparison with the Rust and the benchmark call: leaves and entries, exported under names of their own. It is no part of what
// people link. A helper that requires is called only where its requirement holds; elsewhere nothing is done. The set of widths is the present
// one, which is the Rust's, and trees have no key, as the Rust's have none.
#![tactic(auto)]

pub mod numbered;

use code_profile::Profile;
use field_blocks::Block;
use field_gf128::Word;
use numbered::{NumberedBlock, NumberedDigest, NumberedWord, number};
use ring_identities::Sides;
use theory_laws::Refusal;
use theory_record::{Deposit, Trees, WidthSet};
use tree_digest::Hashing;
use tree_place::{Place, Shape};

// 7 coordinates by value.
#[repr(C)]
#[derive(Clone, Copy)]
pub struct Point7 {
    pub words: [Word; 7],
}

// 128 coefficients by value.
#[repr(C)]
#[derive(Clone, Copy)]
pub struct Coefficients {
    pub words: [Word; 128],
}

#[unsafe(no_mangle)]
pub extern "C" fn dequmlo_test_mul(a: Word, b: Word) -> Word {
    field_gf128::mul(a, b)
}

#[unsafe(no_mangle)]
pub extern "C" fn dequmlo_test_square(a: Word) -> Word {
    field_gf128::square(a)
}

#[unsafe(no_mangle)]
pub extern "C" fn dequmlo_test_square_by_table(a: Word) -> Word {
    field_gf128::square_by_table(a)
}

#[unsafe(no_mangle)]
pub extern "C" fn dequmlo_test_inv(a: Word) -> NumberedWord {
    NumberedWord::from(field_gf128::inv(a))
}

// a times b squared n times, each square by masks.
fn mul_squares(a: Word, b: Word, n: u64) -> Word {
    let mut w = b;
    for _ in 0..n {
        w = field_gf128::square(w);
    }
    field_gf128::mul(a, w)
}

// The power 2^128 - 2, by the chain of `inv` with every square by masks: what `inv` is timed beside.
#[unsafe(no_mangle)]
pub extern "C" fn dequmlo_test_inv_by_masks(a: Word) -> Word {
    let a2 = mul_squares(a, a, 1);
    let a3 = mul_squares(a, a2, 1);
    let a6 = mul_squares(a3, a3, 3);
    let a12 = mul_squares(a6, a6, 6);
    let a24 = mul_squares(a12, a12, 12);
    let a48 = mul_squares(a24, a24, 24);
    let a96 = mul_squares(a48, a48, 48);
    let a120 = mul_squares(a24, a96, 24);
    let a126 = mul_squares(a6, a120, 6);
    let a127 = mul_squares(a, a126, 1);
    field_gf128::square(a127)
}

#[unsafe(no_mangle)]
pub extern "C" fn dequmlo_test_scale(s: &mut [u64], r: Word) {
    if s.len() % 2 == 0 {
        let mut t = [0u64; 8192];
        field_runs::scale(s, r, &mut t);
    }
}

#[unsafe(no_mangle)]
pub extern "C" fn dequmlo_test_axpy(y: &mut [u64], x: &[u64], r: Word) {
    if y.len() % 2 == 0 {
        if x.len() == y.len() {
            let mut t = [0u64; 8192];
            field_runs::axpy(y, x, r, &mut t);
        }
    }
}

#[unsafe(no_mangle)]
pub extern "C" fn dequmlo_test_ghash(key: Block, blocks: &[u8]) -> NumberedBlock {
    let hashed = field_blocks::ghash(key, blocks);
    NumberedBlock {
        number: number(&hashed),
        block: hashed.unwrap_or(Block {
            first: 0,
            second: 0,
        }),
    }
}

#[unsafe(no_mangle)]
pub extern "C" fn dequmlo_test_pack_table(bytes: &[u8], out: &mut [u64]) -> u32 {
    number(&field_pack::pack_table(bytes, out))
}

#[unsafe(no_mangle)]
pub extern "C" fn dequmlo_test_phi_c(p: Word, c: Coefficients) -> Word {
    field_pack::phi_c(p, c.words)
}

#[unsafe(no_mangle)]
pub extern "C" fn dequmlo_test_phi_tab(p: Word, c: Coefficients) -> Word {
    let t = field_pack::phi_tab(c.words);
    field_pack::phi_tab_apply(&t, p)
}

// The sum of phi over the words of a run, by tables that are filled once.
#[unsafe(no_mangle)]
pub extern "C" fn dequmlo_test_phi_tab_sum(s: &[u64], c: Coefficients) -> Word {
    let t = field_pack::phi_tab(c.words);
    let mut sum = Word { lo: 0, hi: 0 };
    for v in 0..s.len() / 2 {
        sum = field_gf128::add(sum, field_pack::phi_tab_apply(&t, field_words::get(s, v)));
    }
    sum
}

#[unsafe(no_mangle)]
pub extern "C" fn dequmlo_test_eq_coefficients(r: Point7) -> Coefficients {
    let words = field_pack::eq_coefficients(r.words);
    Coefficients { words }
}

#[unsafe(no_mangle)]
pub extern "C" fn dequmlo_test_eq_table(n: usize, point: &[u64], out: &mut [u64]) -> u32 {
    number(&field_equality::eq_table(n, point, out))
}

#[unsafe(no_mangle)]
pub extern "C" fn dequmlo_test_digest(input: &[u8]) -> NumberedDigest {
    NumberedDigest::from(hash_hasher::whole::digest(input))
}

// The digests of four messages of one length, of at most a chunk.
#[repr(C)]
#[derive(Clone, Copy)]
pub struct FourDigests {
    pub a: [u8; 32],
    pub b: [u8; 32],
    pub c: [u8; 32],
    pub d: [u8; 32],
}

fn none() -> FourDigests {
    FourDigests {
        a: [0; 32],
        b: [0; 32],
        c: [0; 32],
        d: [0; 32],
    }
}

#[unsafe(no_mangle)]
pub extern "C" fn dequmlo_test_four(s0: &[u8], s1: &[u8], s2: &[u8], s3: &[u8]) -> FourDigests {
    let len = s0.len();
    if len > 1024 || s1.len() != len || s2.len() != len || s3.len() != len {
        return none();
    }
    let counters = [0u64; 4];
    let v = hash_four_chunks::chunks(hash_compress::iv(), 0, 0, &counters, s0, s1, s2, s3, 8);
    let a = hash_four_chunks::lane_bytes(&v, 0);
    let b = hash_four_chunks::lane_bytes(&v, 1);
    let c = hash_four_chunks::lane_bytes(&v, 2);
    let d = hash_four_chunks::lane_bytes(&v, 3);
    FourDigests { a, b, c, d }
}

// A number, and the n of a folded codeword.
#[repr(C)]
#[derive(Clone, Copy)]
pub struct NumberedN {
    pub number: u32,
    pub n: usize,
}

#[unsafe(no_mangle)]
pub extern "C" fn dequmlo_test_derive(n: usize, k: usize, domain: &[u8], out: &mut [u64]) -> u32 {
    number(&code_gamma::derive(n, k, domain, out))
}

#[unsafe(no_mangle)]
pub extern "C" fn dequmlo_test_l_of(
    n: usize,
    k: usize,
    original: usize,
    eps: usize,
    coordinates: &[usize],
    gammas: &[u64],
    out: &mut [u64],
) -> u32 {
    number(&code_codeword::l_of(n, k, original, eps, coordinates, gammas, out))
}

#[unsafe(no_mangle)]
pub extern "C" fn dequmlo_test_encode(
    n: usize,
    k: usize,
    table: &[u64],
    gammas: &[u64],
    out: &mut [u64],
) -> u32 {
    number(&code_codeword::encode(n, k, table, gammas, out))
}

#[unsafe(no_mangle)]
pub extern "C" fn dequmlo_test_fold(
    n: usize,
    k: usize,
    original: usize,
    var: usize,
    r: Word,
    coordinates: &mut [usize],
    src: &[u64],
    out: &mut [u64],
) -> NumberedN {
    let answer = code_codeword::fold(n, k, original, var, r, coordinates, src, out);
    NumberedN {
        number: number(&answer),
        n: answer.unwrap_or(0),
    }
}

#[unsafe(no_mangle)]
pub extern "C" fn dequmlo_test_earlier_reading(
    n: usize,
    k: usize,
    original: usize,
    coordinates: &mut [usize],
) -> u32 {
    number(&code_codeword::earlier_reading(n, k, original, coordinates))
}

#[unsafe(no_mangle)]
pub extern "C" fn dequmlo_test_partial_evals(
    n: usize,
    packed: &[u64],
    eq: &[u64],
    out: &mut [u64],
) -> u32 {
    number(&ring_partials::partial_evals(n, packed, eq, out))
}

#[unsafe(no_mangle)]
pub extern "C" fn dequmlo_test_fold_partials(s: &[u64], rb: Coefficients) -> NumberedWord {
    NumberedWord::from(ring_partials::fold_partials(s, rb.words))
}

#[unsafe(no_mangle)]
pub extern "C" fn dequmlo_test_materialize(
    n: usize,
    z: &[u64],
    rb: Coefficients,
    out: &mut [u64],
) -> u32 {
    number(&ring_indicator::materialize(n, z, rb.words, out))
}

#[unsafe(no_mangle)]
pub extern "C" fn dequmlo_test_eval_at(
    n: usize,
    z: &[u64],
    rb: Coefficients,
    point: &[u64],
) -> NumberedWord {
    NumberedWord::from(ring_indicator::eval_at(n, z, rb.words, point))
}

// A number, and both sides of an identity.
#[repr(C)]
#[derive(Clone, Copy)]
pub struct NumberedSides {
    pub number: u32,
    pub left: Word,
    pub right: Word,
}

impl From<Result<Sides, Refusal>> for NumberedSides {
    fn from(answer: Result<Sides, Refusal>) -> NumberedSides {
        let zero = Word { lo: 0, hi: 0 };
        let none = Sides {
            left: zero,
            right: zero,
        };
        let number = number(&answer);
        let Sides { left, right } = answer.unwrap_or(none);
        NumberedSides {
            number,
            left,
            right,
        }
    }
}

#[unsafe(no_mangle)]
pub extern "C" fn dequmlo_test_extension_sides(
    n: usize,
    packed: &[u64],
    point: &[u64],
    row: Point7,
    table: &mut [u64],
) -> NumberedSides {
    let sides = ring_identities::extension_sides(n, packed, point, row.words, table);
    NumberedSides::from(sides)
}

#[unsafe(no_mangle)]
pub extern "C" fn dequmlo_test_fold_sides(
    n: usize,
    packed: &[u64],
    point: &[u64],
    rb: Coefficients,
    table: &mut [u64],
) -> NumberedSides {
    let sides = ring_identities::fold_sides(n, packed, point, rb.words, table);
    NumberedSides::from(sides)
}

// How the Rust's trees are made.
fn trees() -> Trees {
    Trees {
        set: WidthSet::Present,
        mode: hash_modes::hash_mode(),
    }
}

// How a tree of the Rust's is hashed.
fn hashing(domain: &[u8]) -> Hashing<'_> {
    Hashing {
        mode: hash_modes::hash_mode(),
        domain,
    }
}

// A deposit of the Rust's.
fn deposit(base: &[u8], n: usize, k: usize) -> Deposit<'_> {
    Deposit {
        how: trees(),
        base,
        n,
        k,
    }
}

#[unsafe(no_mangle)]
pub extern "C" fn dequmlo_test_build(
    domain: &[u8],
    count: usize,
    width: usize,
    values: &[u64],
    tree: &mut [u8],
) -> u32 {
    number(&tree_build::build(hashing(domain), Shape { count, width }, values, tree))
}

#[unsafe(no_mangle)]
pub extern "C" fn dequmlo_test_serialize_parts(
    bytes: &[u8],
    lengths: &[u64],
    out: &mut [u8],
) -> u32 {
    number(&hash_serialize_parts::serialize_parts(bytes, lengths, out))
}

#[unsafe(no_mangle)]
pub extern "C" fn dequmlo_test_leaf_digest(
    domain: &[u8],
    count: usize,
    width: usize,
    place: usize,
    values: &[u64],
) -> NumberedDigest {
    let shape = Shape { count, width };
    NumberedDigest::from(hashing(domain).leaf_digest(shape, Place::at(place), values))
}

#[unsafe(no_mangle)]
pub extern "C" fn dequmlo_test_node_digest(
    domain: &[u8],
    level: usize,
    left: &[u8],
    right: &[u8],
) -> NumberedDigest {
    NumberedDigest::from(hashing(domain).node_digest(level, left, right))
}

#[unsafe(no_mangle)]
pub extern "C" fn dequmlo_test_open(
    count: usize,
    width: usize,
    place: usize,
    tree: &[u8],
    path: &mut [u8],
) -> u32 {
    number(&tree_path::open(Shape { count, width }, Place::at(place), tree, path))
}

#[unsafe(no_mangle)]
pub extern "C" fn dequmlo_test_root_of_path(
    domain: &[u8],
    count: usize,
    width: usize,
    place: usize,
    values: &[u64],
    path: &[u8],
) -> NumberedDigest {
    let root = tree_path::root_of_path(
        hashing(domain),
        Shape { count, width },
        Place::at(place),
        values,
        path,
    );
    NumberedDigest::from(root)
}

// A number, and the level for 16 to 26.
#[repr(C)]
#[derive(Clone, Copy)]
pub struct NumberedLevel {
    pub number: u32,
    pub level: u32,
}

#[unsafe(no_mangle)]
pub extern "C" fn dequmlo_test_check_query(
    base: &[u8],
    n: usize,
    k: usize,
    position: usize,
    challenges: &[u64],
    roots: &[u8],
    s: &[u8],
) -> NumberedLevel {
    let place = Place::at(position);
    match record_query_check::check_query(deposit(base, n, k), place, challenges, roots, s) {
        Ok(()) => NumberedLevel {
            number: 0,
            level: 0,
        },
        Err(rejection) => NumberedLevel {
            number: rejection.refusal.number(),
            level: rejection.level,
        },
    }
}

#[unsafe(no_mangle)]
pub extern "C" fn dequmlo_test_check_tail(
    base: &[u8],
    n: usize,
    k: usize,
    root: &[u8],
    claim: Word,
    s: &[u8],
) -> u32 {
    number(&record_tail_check::check_tail(deposit(base, n, k), root, claim, s))
}

#[unsafe(no_mangle)]
pub extern "C" fn dequmlo_test_build_tail(
    out: &mut [u8],
    level: &[u64],
    tree: &[u8],
    n: usize,
    k: usize,
) -> u32 {
    number(&record_tail_build::build_tail(out, level, tree, WidthSet::Present, n, k))
}

#[unsafe(no_mangle)]
pub extern "C" fn dequmlo_test_build_query(
    out: &mut [u8],
    levels: &[u64],
    trees: &[u8],
    n: usize,
    k: usize,
    position: usize,
) -> u32 {
    let place = Place::at(position);
    number(&record_query_build::build_query(out, levels, trees, WidthSet::Present, n, k, place))
}

#[unsafe(no_mangle)]
pub extern "C" fn dequmlo_test_fold_tree_width(length: usize) -> usize {
    code_level::fold_tree_width(WidthSet::Present, length)
}

// The domain's length.
#[unsafe(no_mangle)]
pub extern "C" fn dequmlo_test_level_domain(out: &mut [u8], base: &[u8], level: usize) -> usize {
    if level >= 100 {
        return 0;
    }
    if out.len() < 9 {
        return 0;
    }
    if base.len() > out.len() - 9 {
        return 0;
    }
    code_level::level_domain(out, base, level)
}

// The domain is the first `length` bytes.
#[repr(C)]
#[derive(Clone, Copy)]
pub struct Params {
    pub k: usize,
    pub queries: usize,
    pub domain: [u8; 24],
    pub length: usize,
}

// The first default, which is the Rust's, or profile 1 to 4.
fn profile(number: usize) -> Profile {
    match number {
        1 => Profile::FastChunk,
        2 => Profile::Balanced,
        3 => Profile::CompactWrap,
        4 => Profile::DeepWrap,
        _ => Profile::FirstDefault,
    }
}

#[unsafe(no_mangle)]
pub extern "C" fn dequmlo_test_parameters(number: usize) -> Params {
    let p = code_profile::parameters_of(profile(number));
    let domain = p.domain;
    Params {
        k: p.k,
        queries: p.queries,
        domain,
        length: p.length,
    }
}

#[unsafe(no_mangle)]
pub extern "C" fn dequmlo_test_commit(
    n: usize,
    k: usize,
    base: &[u8],
    table: &[u64],
    gammas: &mut [u64],
    codeword: &mut [u64],
    coordinates: &mut [usize],
    tree: &mut [u8],
) -> u32 {
    number(&code_commit::commit(
        trees(),
        n,
        k,
        base,
        table,
        gammas,
        codeword,
        coordinates,
        tree,
    ))
}
