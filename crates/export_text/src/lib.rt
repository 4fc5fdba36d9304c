// Values as the programs print them, and the input that they read into a buffer. Nothing above rests on what is printed; the functions are proved safe
// and ending.
#![tactic(auto)]

ghost use Rattle.std.specs.Prelude.{◌≤◌, length, IfOk};

use field_gf128::Word;
use std::io::Read;
use std::{fmt, io};

// A word in 32 hexadecimal digits, the highest first.
#[derive(Clone, Copy)]
pub struct Digits(pub Word);

impl fmt::Display for Digits {
    fn fmt<W: fmt::Write>(&self, f: &mut fmt::Formatter<W>) -> fmt::Result {
        let Word { lo, hi } = self.0;
        write!(f, "{hi:016x}{lo:016x}")
    }
}

// Bytes in two hexadecimal digits each.
#[derive(Clone, Copy)]
pub struct Bytes<'a>(pub &'a [u8]);

impl<'a> fmt::Display for Bytes<'a> {
    fn fmt<W: fmt::Write>(&self, f: &mut fmt::Formatter<W>) -> fmt::Result {
        for b in self.0 {
            write!(f, "{b:02x}")?;
        }
        Ok(())
    }
}

// Reads until the buffer is full or the input ends, and answers how many bytes it put at the buffer's start; fails where a read does.
pub fn read_full(reader: &mut impl Read, buffer: &mut [u8]) -> io::Result<usize>
    ensures { IfOk result (λ n. n ≤ length buffer.new) }
{
    let mut done = 0;
    while done < buffer.len() {
        let count = reader.read(&mut buffer[done..])?;
        if count == 0 {
            break;
        }
        done += count;
    }
    Ok(done)
}
