// The demonstration: a product, a square and an inverse of words, and the refusal of the word that has none.
#![tactic(auto)]

use export_text::Digits;
use field_gf128::Word;
use std::io;

// A word's inverse, or the refusal in words.
fn show_inverse(rt: &impl Print, a: Word) -> io::Result<()> {
    let word = Digits(a);
    match field_gf128::inv(a) {
        Ok(w) => println!(rt; "1 / {word} = {}", Digits(w)),
        Err(refusal) => println!(rt;
            "1 / {word} refused, {}: the word to invert is 0",
            refusal.number()
        ),
    }
}

fn main(rt: HostRuntime) -> io::Result<()> {
    let x = Word { lo: 2, hi: 0 };
    let top = Word {
        lo: 0,
        hi: 0x8000_0000_0000_0000,
    };
    println!(&rt; "GF(2^128), x^128 + x^7 + x^2 + x + 1; bit i is the coefficient of x^i")?;
    println!(&rt;
        "x * {} = {}",
        Digits(top),
        Digits(field_gf128::mul(x, top))
    )?;
    println!(&rt;
        "the square of {} = {}",
        Digits(top),
        Digits(field_gf128::square(top))
    )?;
    show_inverse(&rt, x)?;
    show_inverse(&rt, Word { lo: 0, hi: 0 })
}
