// The field GF(2^128) on words by value, after gf128.rs: a u128 becomes two u64.
#![tactic(auto)]

ghost use Rattle.std.specs.Prelude.{◌≡◌, ◌*◌, ◌/◌, ◌^◌, ◌<◌};
ghost use Rattle.theory_laws.specs.Xor.{◌⊕◌};
ghost use Rattle.theory_laws.specs.Table.{tab};
ghost use Rattle.theory_field.specs.Field.{xtime, ◌⊗◌, sq, frob, inverse};
ghost use Rattle.theory_field.specs.LongProduct.{long};
ghost use Rattle.theory_field.proofs.LongProduct.{red};
ghost use Rattle.theory_field.specs.Spread.{spread};
ghost use Rattle.field_gf128.specs.Word.{word, wide};
ghost use Rattle.field_gf128.specs.Inverse.{answer, inverse_of};

use table::Table;
use theory_laws::Refusal;

mod table;

// A word: bit i of `lo` is the coefficient of x^i, and bit i of `hi` that of x^(64 + i).
#[repr(C)]
#[derive(Clone, Copy, Debug, PartialEq, Eq)]
pub struct Word {
    pub lo: u64,
    pub hi: u64,
}

// A product of two words before it is reduced: bit i of `lo` is the coefficient of x^i, and bit i of `hi` that of x^(128 + i).
#[derive(Clone, Copy)]
struct Wide {
    lo: Word,
    hi: Word,
}

// The sum: in characteristic two, exclusive or.
pub fn add(a: Word, b: Word) -> Word
    ensures { word result ≡ word a ⊕ word b }
{
    Word {
        lo: a.lo ^ b.lo,
        hi: a.hi ^ b.hi,
    }
}

// The word times x.
pub fn double(a: Word) -> Word
    ensures { word result ≡ xtime (word a) }
{
    Word {
        lo: ((a.hi >> 63) * 0x87) ^ (a.lo << 1),
        hi: (a.hi << 1) ^ (a.lo >> 63),
    }
}

// The products of a and each polynomial of degree below 4, at the place that is the polynomial's number. None passes 64 bits.
fn multiples(a: u64) -> [u64; 16]
    requires { a < 2 ^ 61 }
    ensures { result ≡ tab 16 (long 4 a) }
{
    let a2 = a << 1;
    let a4 = a << 2;
    let a8 = a << 3;
    let a3 = a ^ a2;
    let a12 = a4 ^ a8;
    [
        0,
        a,
        a2,
        a3,
        a4,
        a ^ a4,
        a2 ^ a4,
        a3 ^ a4,
        a8,
        a ^ a8,
        a2 ^ a8,
        a3 ^ a8,
        a12,
        a ^ a12,
        a2 ^ a12,
        a3 ^ a12,
    ]
}

// The word moved up by four places; none of its bits is lost.
fn shl4(w: Word) -> Word
    requires { word w < 2 ^ 124 }
    ensures { word result ≡ word w * 16 }
{
    Word {
        lo: w.lo << 4,
        hi: (w.hi << 4) | (w.lo >> 60),
    }
}

// The carry-less product by windows of four bits of b, the highest first.
fn clmul61(a: u64, b: u64) -> Word
    requires { a < 2 ^ 61 }
    ensures { word result ≡ long 64 a b }
{
    let t = multiples(a);
    let mut p = Word { lo: 0, hi: 0 };
    for j in 0..16u64 {
        let n = ((b >> (60 - 4 * j)) & 15) as usize;
        p = add(shl4(p), Word { lo: t[n], hi: 0 });
    }
    p
}

// The carry-less product with the three highest bits of a.
fn clmul_top(a: u64, b: u64) -> Word
    ensures { word result ≡ long 64 (a / 2 ^ 61 * 2 ^ 61) b }
{
    let a61 = (a >> 61) & 1;
    let a62 = (a >> 62) & 1;
    let a63 = a >> 63;
    Word {
        lo: (a61 * (b << 61)) ^ ((a62 * (b << 62)) ^ (a63 * (b << 63))),
        hi: (a61 * (b >> 3)) ^ ((a62 * (b >> 2)) ^ (a63 * (b >> 1))),
    }
}

// The carry-less product of two halves. Without the three highest bits of a, its multiples stay within 64 bits.
fn clmul64(a: u64, b: u64) -> Word
    ensures { word result ≡ long 64 a b }
{
    add(clmul61(a & 0x1fff_ffff_ffff_ffff, b), clmul_top(a, b))
}

// The carry-less product of two words, by three products of halves (Karatsuba).
fn clmul128(a: Word, b: Word) -> Wide
    ensures { wide result ≡ long 128 (word a) (word b) }
{
    let lo = clmul64(a.lo, b.lo);
    let hi = clmul64(a.hi, b.hi);
    let mid = add(clmul64(a.lo ^ a.hi, b.lo ^ b.hi), add(lo, hi));
    Wide {
        lo: Word {
            lo: lo.lo,
            hi: lo.hi ^ mid.lo,
        },
        hi: Word {
            lo: mid.hi ^ hi.lo,
            hi: hi.hi,
        },
    }
}

// The remainder of a carry-less product by x^128 + x^7 + x^2 + x + 1. The high word h times x^7 + x^2 + x + 1 is added to the low
// word, and so is q, the seven bits of that product past x^127, times the same.
fn reduce256(t: Wide) -> Word
    ensures { word result ≡ red (wide t) }
{
    let l = t.lo;
    let h = t.hi;
    let q = (h.hi >> 63) ^ ((h.hi >> 62) ^ (h.hi >> 57));
    let qr = q ^ ((q << 1) ^ ((q << 2) ^ (q << 7)));
    let r0 = h.lo ^ ((h.lo << 1) ^ ((h.lo << 2) ^ (h.lo << 7)));
    let r1 = h.hi ^ ((h.hi << 1) ^ ((h.hi << 2) ^ (h.hi << 7)));
    let c = (h.lo >> 63) ^ ((h.lo >> 62) ^ (h.lo >> 57));
    Word {
        lo: l.lo ^ (r0 ^ qr),
        hi: l.hi ^ (r1 ^ c),
    }
}

// The product.
pub fn mul(a: Word, b: Word) -> Word
    ensures { word result ≡ word a ⊗ word b }
{
    reduce256(clmul128(a, b))
}

// What spreads 32 bits apart, each with a zero above it: by masks, or by a table.
trait Spread {
    fn spread32(&self, x: u64) -> u64
        requires { x < 2 ^ 32 }
        ensures { result ≡ spread 32 x };
}

// Bits spread apart by shifts and masks.
#[derive(Clone, Copy)]
struct Masks;

impl Spread for Masks {
    fn spread32(&self, x: u64) -> u64 {
        let by16 = (x ^ (x << 16)) & 0x0000_ffff_0000_ffff;
        let by8 = (by16 ^ (by16 << 8)) & 0x00ff_00ff_00ff_00ff;
        let by4 = (by8 ^ (by8 << 4)) & 0x0f0f_0f0f_0f0f_0f0f;
        let by2 = (by4 ^ (by4 << 2)) & 0x3333_3333_3333_3333;
        (by2 ^ (by2 << 1)) & 0x5555_5555_5555_5555
    }
}

// A half spread apart: a word.
fn spread64<S: Spread>(by: &S, x: u64) -> Word
    ensures { word result ≡ spread 64 x }
{
    Word {
        lo: by.spread32(x & 0xffff_ffff),
        hi: by.spread32(x >> 32),
    }
}

// The square. The carry-less square of a word is its bits spread apart, since no two of them have a product of their own.
fn square_by<S: Spread>(by: &S, a: Word) -> Word
    ensures { word result ≡ sq (word a) }
{
    reduce256(Wide {
        lo: spread64(by, a.lo),
        hi: spread64(by, a.hi),
    })
}

// The square, by masks.
pub fn square(a: Word) -> Word
    ensures { word result ≡ sq (word a) }
{
    square_by(&Masks, a)
}

// The word squared n times: its power 2^n.
fn squares(t: &Table, a: Word, n: u64) -> Word
    ensures { word result ≡ frob n (word a) }
{
    let mut w = a;
    for _i in 0..n {
        w = square_by(t, w);
    }
    w
}

// The square through the table of bytes. The table is built anew for it, so that one square is quicker without (`square`); `inv` builds it
// once for 127.
pub fn square_by_table(a: Word) -> Word
    ensures { word result ≡ sq (word a) }
{
    squares(&Table::new(), a, 1)
}

// a times b squared n times.
fn mul_squares(t: &Table, a: Word, b: Word, n: u64) -> Word
    ensures { word result ≡ word a ⊗ frob n (word b) }
{
    mul(a, squares(t, b, n))
}

// The power 2^128 - 2. With a_n for the power 2^n - 1, a_(m + n) is a_m times a_n squared m times (Itoh and Tsujii), and the
// square of a_127 is that power: 10 products and 127 squares.
fn power(t: &Table, a: Word) -> Word
    ensures { word result ≡ inverse (word a) }
{
    let a2 = mul_squares(t, a, a, 1);
    let a3 = mul_squares(t, a, a2, 1);
    let a6 = mul_squares(t, a3, a3, 3);
    let a12 = mul_squares(t, a6, a6, 6);
    let a24 = mul_squares(t, a12, a12, 12);
    let a48 = mul_squares(t, a24, a24, 24);
    let a96 = mul_squares(t, a48, a48, 48);
    let a120 = mul_squares(t, a24, a96, 24);
    let a126 = mul_squares(t, a6, a120, 6);
    let a127 = mul_squares(t, a, a126, 1);
    squares(t, a127, 1)
}

// The inverse. Question 1 (SPECIFICATION 8.2): the word 0 has none, and is refused with 1.
pub fn inv(a: Word) -> Result<Word, Refusal>
    ensures { answer result ≡ inverse_of (word a) }
{
    if (a.lo | a.hi) == 0 {
        return Err(Refusal::NoInverse);
    }
    Ok(power(&Table::new(), a))
}
