// Bytes and little-endian numbers in lent slices. These are helpers for the crates above: what reaches into a slice requires that it has the
// bytes.
#![tactic(auto)]

ghost use Rattle.std.specs.Prelude.{◌+◌, ◌-◌, ◌^◌, ◌≤◌, ◌<◌, ◌≡◌, length, replicate};
ghost use Rattle.theory_laws.specs.Lists.{part, stored, le_bytes, le_value, same};
ghost use Rattle.bytes_numbers.specs.helpers.Put.{Put};

// The 32 bytes from a place on.
pub fn load(s: &[u8], from: usize) -> [u8; 32]
    requires { from + 32 ≤ length s.now }
    ensures { result ≡ part 32 from s.now }
{
    s[from..from + 32].try_into().unwrap()
}

// Are two byte strings the same? The library's test, with the definition's as its clause, in which the callers' contracts are stated.
pub fn same_bytes(a: &[u8], b: &[u8]) -> bool
    ensures { result ≡ same a.now b.now }
{
    a == b
}

// The number in this many bytes from a place on, at most 8, the lowest first.
pub fn number_at(s: &[u8], from: usize, size: usize) -> u64
    requires { (size ≤ 8) × (from + size ≤ length s.now) }
    ensures { (result ≡ le_value (part size from s.now)) × (result < 256 ^ size) }
{
    let mut bytes = [0u8; 8];
    bytes[..size].copy_from_slice(&s[from..from + size]);
    u64::from_le_bytes(bytes)
}

// The bytes of src, put from a place on; the place after them.
pub fn put(out: &mut [u8], from: usize, src: &[u8]) -> usize
    requires { from + length src.now ≤ length out.old }
    ensures { Put out.old from (length src.now) src.now out.new result }
{
    // No `copy_from_slice`: where both lie in one buffer the compiler makes a call of memmove of it, a name that the archive for C does not need otherwise.
    for i in 0..src.len() {
        out[from + i] = src[i];
    }
    from + src.len()
}

// A number, put in this many bytes, the lowest first; the place after them.
pub fn put_number(out: &mut [u8], from: usize, x: u64, size: usize) -> usize
    requires { from + size ≤ length out.old }
    ensures { Put out.old from size (le_bytes size x) out.new result }
{
    let end = from + size;
    let mut rest = x;
    for b in out[from..end].iter_mut() {
        *b = (rest % 256) as u8;
        rest = rest / 256;
    }
    end
}

// The eight bytes of a number, the lowest first.
pub fn number_bytes(x: u64) -> [u8; 8]
    ensures { result ≡ le_bytes 8 x }
{
    x.to_le_bytes()
}

// Zeros from a place to the end.
pub fn clear(out: &mut [u8], from: usize)
    ensures { out.new ≡ stored out.old from (replicate (length out.old - from) 0) }
{
    if from < out.len() {
        out[from..].fill(0);
    }
}
