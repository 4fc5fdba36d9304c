// Parts serialized into one message: their count, then each part after its length. The parts lie end to end in one slice, and their
// lengths are given beside.
#![tactic(auto)]

pub mod part;

ghost use Rattle.std.specs.Prelude.{◌≡◌, eqb, length, ◌+◌, ◌*◌};
ghost use Rattle.theory_laws.specs.Refusals.{answered};
ghost use Rattle.hash_serialize_parts.specs.Parts as S;
ghost use Rattle.hash_serialize_parts.specs.helpers.Room.{Sized};

use crate::part::put_part;
use bytes_numbers::put_number;
use theory_laws::Refusal;

// Whether the lengths sum to n.
fn sum_is(lengths: &[u64], n: usize) -> bool
    ensures { result ≡ eqb (S.total lengths.now) n }
{
    let mut left = n as u64;
    for l in lengths {
        if left < *l {
            return false;
        }
        left -= *l;
    }
    left == 0
}

// Whether the output is 8 + 8 × parts + bytes long.
fn size_is(out: usize, parts: usize, bytes: usize) -> bool
    ensures { result ≡ eqb out (8 + 8 * parts + bytes) }
{
    out as u128 == 8 + 8 * parts as u128 + bytes as u128
}

// Question 5, for a slice of bytes, the parts' lengths and an output so long.
fn questions(bytes: &[u8], lengths: &[u64], out: usize) -> Result<(), Refusal>
    ensures { answered result ≡ S.number_of lengths.now (length bytes.now) out }
{
    if !sum_is(lengths, bytes.len()) {
        return Err(Refusal::Length);
    }
    if !size_is(out, lengths.len(), bytes.len()) {
        return Err(Refusal::Length);
    }
    Ok(())
}

// The parts put into an output that is as long as they need.
fn put_parts(bytes: &[u8], lengths: &[u64], out: &mut [u8])
    requires { Sized lengths.now (length bytes.now) (length out.old) }
    ensures { out.new ≡ S.serialized lengths.now bytes.now }
{
    let mut to = put_number(out, 0, lengths.len() as u64, 8);
    let mut from: usize = 0;
    for l in lengths {
        let end = from + *l as usize;
        to = put_part(out, to, &bytes[from..end]);
        from = end;
    }
}

// The parts into the output: 5, and the output as it was, unless the lengths sum to the bytes and the output is 8 + 8 × parts + bytes.
pub fn serialize_parts(bytes: &[u8], lengths: &[u64], out: &mut [u8]) -> Result<(), Refusal>
    ensures value { answered result ≡ S.number_of lengths.now (length bytes.now) (length out.old) }
    ensures out_after { out.new ≡ S.serialized_into lengths.now bytes.now out.old }
{
    questions(bytes, lengths, out.len())?;
    put_parts(bytes, lengths, out);
    Ok(())
}
