// A part put into a lent buffer, after its length. A helper for the crates above: it requires that its bytes fit.
ghost use Rattle.std.specs.Prelude.{◌+◌, ◌≤◌, length};
ghost use Rattle.bytes_numbers.specs.helpers.Put.{Put};
ghost use Rattle.theory_merkle.specs.Message.{prefixed};

use bytes_numbers::{put, put_number};

// The part, after its length in eight bytes; the place after them.
pub fn put_part(out: &mut [u8], from: usize, part: &[u8]) -> usize
    requires { from + 8 + length part.now ≤ length out.old }
    ensures { Put out.old from (8 + length part.now) (prefixed part.now) out.new result }
{
    let at = put_number(out, from, part.len() as u64, 8);
    put(out, at, part)
}
