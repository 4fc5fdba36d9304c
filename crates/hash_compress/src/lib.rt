// The compression function of BLAKE3: a chaining value and a block of 16 words give 16 words. Its functions serve the crates
// above: those with a `requires` are not for export.
#![tactic(auto)]

ghost use Rattle.std.specs.Prelude.{◌≡◌, ◌+◌, ◌%◌, ◌^◌, ◌<◌};
ghost use Rattle.theory_laws.specs.Table.{at};
ghost use Rattle.theory_blake3.specs.Compression as C;
ghost use Rattle.theory_blake3.specs.Orders as O;
ghost use Rattle.hash_compress.specs.helpers.Rounds as R;

// The places of the message's words, in the order in which each round takes them.
const ORDER: [[u8; 16]; 7] = [
    [0, 1, 2, 3, 4, 5, 6, 7, 8, 9, 10, 11, 12, 13, 14, 15],
    [2, 6, 3, 10, 7, 0, 4, 13, 1, 11, 12, 5, 9, 14, 15, 8],
    [3, 4, 10, 12, 13, 2, 7, 14, 6, 5, 9, 0, 11, 15, 8, 1],
    [10, 7, 12, 9, 14, 3, 13, 15, 4, 0, 11, 2, 5, 8, 1, 6],
    [12, 13, 9, 11, 15, 10, 14, 8, 7, 2, 5, 3, 0, 1, 6, 4],
    [9, 14, 11, 5, 8, 12, 15, 1, 13, 3, 0, 10, 2, 6, 4, 7],
    [11, 15, 5, 0, 1, 9, 8, 6, 14, 10, 2, 12, 3, 4, 7, 13],
];

const IV: [u32; 8] = [
    0x6A09E667, 0xBB67AE85, 0x3C6EF372, 0xA54FF53A, 0x510E527F, 0x9B05688C, 0x1F83D9AB, 0x5BE0CD19,
];

// The key words of hash mode.
pub fn iv() -> [u32; 8]
    ensures { result ≡ C.iv }
{
    IV
}

// The orders of all rounds.
pub fn orders() -> [[u8; 16]; 7]
    ensures { result ≡ O.orders }
{
    ORDER
}

// x rotated right by n bits.
pub fn rotr(x: u32, n: u32) -> u32
    requires { (0 < n) × (n < 32) }
    ensures { result ≡ C.rotr x n }
{
    (x >> n) | (x << (32 - n))
}

// The sum modulo 2^32.
pub fn add(x: u32, y: u32) -> u32
    ensures { result ≡ (x + y) % 2 ^ 32 }
{
    x.wrapping_add(y)
}

// Half of G at four places of the state, with a word of the message and two distances.
pub fn half(s: &mut [u32; 16], a: usize, b: usize, c: usize, d: usize, x: u32, p: u32, q: u32)
    requires { (a < 16) × (b < 16) × (c < 16) × (d < 16) × (0 < p) × (p < 32) × (0 < q) × (q < 32) }
    ensures { s.new ≡ C.half s.old a b c d x p q }
{
    s[a] = add(add(s[a], s[b]), x);
    s[d] = rotr(s[d] ^ s[a], p);
    s[c] = add(s[c], s[d]);
    s[b] = rotr(s[b] ^ s[c], q);
}

// G at four places of the state, with the message's words at i and j.
pub fn mix(
    s: &mut [u32; 16],
    a: usize,
    b: usize,
    c: usize,
    d: usize,
    m: &[u32; 16],
    i: usize,
    j: usize,
)
    requires { (a < 16) × (b < 16) × (c < 16) × (d < 16) × (i < 16) × (j < 16) }
    ensures { s.new ≡ C.mix s.old a b c d (at m.now i) (at m.now j) }
{
    half(s, a, b, c, d, m[i], 16, 12);
    half(s, a, b, c, d, m[j], 8, 7);
}

// The seven rounds are written out, each in its order, so that every place is a constant to the compiler. The first takes the
// message's words as they stand. One function for all, with the round as a const parameter and the words put in order by the table, was
// tried: it takes 3.69 s for 2^30 bytes in messages of a chunk, where these take 1.82 s.
pub fn round_0(s: &mut [u32; 16], m: &[u32; 16])
    ensures { s.new ≡ C.round s.old m.now }
{
    mix(s, 0, 4, 8, 12, m, 0, 1);
    mix(s, 1, 5, 9, 13, m, 2, 3);
    mix(s, 2, 6, 10, 14, m, 4, 5);
    mix(s, 3, 7, 11, 15, m, 6, 7);
    mix(s, 0, 5, 10, 15, m, 8, 9);
    mix(s, 1, 6, 11, 12, m, 10, 11);
    mix(s, 2, 7, 8, 13, m, 12, 13);
    mix(s, 3, 4, 9, 14, m, 14, 15);
}

fn round_1(s: &mut [u32; 16], m: &[u32; 16])
    ensures { s.new ≡ R.round_at 1 s.old m.now }
{
    mix(s, 0, 4, 8, 12, m, 2, 6);
    mix(s, 1, 5, 9, 13, m, 3, 10);
    mix(s, 2, 6, 10, 14, m, 7, 0);
    mix(s, 3, 7, 11, 15, m, 4, 13);
    mix(s, 0, 5, 10, 15, m, 1, 11);
    mix(s, 1, 6, 11, 12, m, 12, 5);
    mix(s, 2, 7, 8, 13, m, 9, 14);
    mix(s, 3, 4, 9, 14, m, 15, 8);
}

fn round_2(s: &mut [u32; 16], m: &[u32; 16])
    ensures { s.new ≡ R.round_at 2 s.old m.now }
{
    mix(s, 0, 4, 8, 12, m, 3, 4);
    mix(s, 1, 5, 9, 13, m, 10, 12);
    mix(s, 2, 6, 10, 14, m, 13, 2);
    mix(s, 3, 7, 11, 15, m, 7, 14);
    mix(s, 0, 5, 10, 15, m, 6, 5);
    mix(s, 1, 6, 11, 12, m, 9, 0);
    mix(s, 2, 7, 8, 13, m, 11, 15);
    mix(s, 3, 4, 9, 14, m, 8, 1);
}

fn round_3(s: &mut [u32; 16], m: &[u32; 16])
    ensures { s.new ≡ R.round_at 3 s.old m.now }
{
    mix(s, 0, 4, 8, 12, m, 10, 7);
    mix(s, 1, 5, 9, 13, m, 12, 9);
    mix(s, 2, 6, 10, 14, m, 14, 3);
    mix(s, 3, 7, 11, 15, m, 13, 15);
    mix(s, 0, 5, 10, 15, m, 4, 0);
    mix(s, 1, 6, 11, 12, m, 11, 2);
    mix(s, 2, 7, 8, 13, m, 5, 8);
    mix(s, 3, 4, 9, 14, m, 1, 6);
}

fn round_4(s: &mut [u32; 16], m: &[u32; 16])
    ensures { s.new ≡ R.round_at 4 s.old m.now }
{
    mix(s, 0, 4, 8, 12, m, 12, 13);
    mix(s, 1, 5, 9, 13, m, 9, 11);
    mix(s, 2, 6, 10, 14, m, 15, 10);
    mix(s, 3, 7, 11, 15, m, 14, 8);
    mix(s, 0, 5, 10, 15, m, 7, 2);
    mix(s, 1, 6, 11, 12, m, 5, 3);
    mix(s, 2, 7, 8, 13, m, 0, 1);
    mix(s, 3, 4, 9, 14, m, 6, 4);
}

fn round_5(s: &mut [u32; 16], m: &[u32; 16])
    ensures { s.new ≡ R.round_at 5 s.old m.now }
{
    mix(s, 0, 4, 8, 12, m, 9, 14);
    mix(s, 1, 5, 9, 13, m, 11, 5);
    mix(s, 2, 6, 10, 14, m, 8, 12);
    mix(s, 3, 7, 11, 15, m, 15, 1);
    mix(s, 0, 5, 10, 15, m, 13, 3);
    mix(s, 1, 6, 11, 12, m, 0, 10);
    mix(s, 2, 7, 8, 13, m, 2, 6);
    mix(s, 3, 4, 9, 14, m, 4, 7);
}

fn round_6(s: &mut [u32; 16], m: &[u32; 16])
    ensures { s.new ≡ R.round_at 6 s.old m.now }
{
    mix(s, 0, 4, 8, 12, m, 11, 15);
    mix(s, 1, 5, 9, 13, m, 5, 0);
    mix(s, 2, 6, 10, 14, m, 1, 9);
    mix(s, 3, 7, 11, 15, m, 8, 6);
    mix(s, 0, 5, 10, 15, m, 14, 10);
    mix(s, 1, 6, 11, 12, m, 2, 12);
    mix(s, 2, 7, 8, 13, m, 3, 4);
    mix(s, 3, 4, 9, 14, m, 7, 13);
}

// The seven rounds.
pub fn rounds(start: [u32; 16], m: &[u32; 16]) -> [u32; 16]
    ensures { result ≡ C.rounds 7 start m.now }
{
    let mut s = start;
    round_0(&mut s, m);
    round_1(&mut s, m);
    round_2(&mut s, m);
    round_3(&mut s, m);
    round_4(&mut s, m);
    round_5(&mut s, m);
    round_6(&mut s, m);
    s
}

// The low half of the counter.
pub fn low(t: u64) -> u32
    ensures { result ≡ t % 2 ^ 32 }
{
    (t & 0xffff_ffff) as u32
}

// The state that the rounds start from.
pub fn initial(h: [u32; 8], counter: u64, len: u32, flags: u32) -> [u32; 16]
    ensures { result ≡ C.initial h counter len flags }
{
    let lo = low(counter);
    let hi = (counter >> 32) as u32;
    [
        h[0], h[1], h[2], h[3], h[4], h[5], h[6], h[7], 0x6A09E667, 0xBB67AE85, 0x3C6EF372,
        0xA54FF53A, lo, hi, len, flags,
    ]
}

// The output, of the state that the rounds end in.
pub fn output(h: [u32; 8], v: [u32; 16]) -> [u32; 16]
    ensures { result ≡ C.output h v }
{
    [
        v[0] ^ v[8],
        v[1] ^ v[9],
        v[2] ^ v[10],
        v[3] ^ v[11],
        v[4] ^ v[12],
        v[5] ^ v[13],
        v[6] ^ v[14],
        v[7] ^ v[15],
        v[8] ^ h[0],
        v[9] ^ h[1],
        v[10] ^ h[2],
        v[11] ^ h[3],
        v[12] ^ h[4],
        v[13] ^ h[5],
        v[14] ^ h[6],
        v[15] ^ h[7],
    ]
}

// The compression function.
pub fn compress(h: [u32; 8], m: [u32; 16], counter: u64, len: u32, flags: u32) -> [u32; 16]
    ensures { result ≡ C.compress h m counter len flags }
{
    let s = initial(h, counter, len, flags);
    let v = rounds(s, &m);
    output(h, v)
}
