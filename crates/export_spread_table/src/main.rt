// The program that works out the table by which `field_gf128` squares (SPECIFICATION 2.3): its 256 entries bit by bit, in order, a line of four
// hexadecimal digits each. tools/house holds the table in the code to what is stored of this.
#![tactic(auto)]

ghost use Rattle.std.specs.Prelude.{◌≡◌};
ghost use Rattle.theory_field.specs.Spread.{spread};

use std::io;

// Entry v: bit i of v goes to bit 2i, one bit after another.
fn entry(v: u64) -> u64
    ensures { result ≡ spread 8 v }
{
    let mut e: u64 = 0;
    for i in 0..8u64 {
        e = e ^ (((v >> i) % 2) << (2 * i));
    }
    e
}

fn main(rt: HostRuntime) -> io::Result<()> {
    for v in 0..256u64 {
        println!(&rt; "{:04x}", entry(v))?;
    }
    Ok(())
}
