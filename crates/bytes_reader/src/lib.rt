// A thin reader over lent bytes: 32 bytes from a place on, and how many are left there. A record is read through `read`. Bytes may be
// anything. `digest_at` requires.
#![tactic(auto)]

ghost use Rattle.std.specs.Prelude.{◌≡◌, ◌+◌, ◌-◌, ◌≤◌, length, take};
ghost use Rattle.theory_laws.specs.Lists.{part};
ghost use Rattle.bytes_reader.specs.Windows.{window_at};

// A reader over lent bytes, and how far it has read.
#[derive(Clone, Copy, Debug, PartialEq, Eq)]
pub struct RecordReader<'a> {
    pub src: &'a [u8],
    pub at: usize,
}

// The 32 bytes from a place on, zeros past the end, and how many are left from there.
#[derive(Clone, Copy, Debug, PartialEq, Eq)]
pub struct Window {
    pub bytes: [u8; 32],
    pub left: usize,
}

// The first 32 bytes.
fn front(s: &[u8]) -> [u8; 32]
    requires { 32 ≤ length s.now }
    ensures { result ≡ take 32 s.now }
{
    s[..32].try_into().unwrap()
}

// What is read at a place.
pub fn window_at(s: &[u8], at: usize) -> Window
    ensures { result ≡ window_at s.now at }
{
    let rest = s.get(at..).unwrap_or(&[]);
    // A whole window is moved at once: where its length is not known, records of many counts take half as long again to read.
    if rest.len() >= 32 {
        return Window {
            bytes: front(rest),
            left: rest.len(),
        };
    }
    let n = rest.len().min(32);
    let mut bytes = [0u8; 32];
    bytes[..n].copy_from_slice(&rest[..n]);
    Window {
        bytes,
        left: rest.len(),
    }
}

// A reader at a place of the lent bytes.
pub fn reader_at<'a>(src: &'a [u8], at: usize) -> RecordReader<'a>
    ensures { (result.src ≡ src.entry) × (result.at ≡ at) }
{
    RecordReader { src, at }
}

impl<'a> RecordReader<'a> {
    // What the reader reads.
    pub fn peek(self) -> Window
        ensures { result ≡ window_at self.entry.src.now self.entry.at }
    {
        window_at(self.src, self.at)
    }
}

// What is read at a place of plain bytes, through a reader. Every other function reads by this one.
pub fn read(s: &[u8], at: usize) -> Window
    ensures { result ≡ window_at s.now at }
{
    reader_at(s, at).peek()
}

// The digest at a place.
pub fn digest_at(s: &[u8], at: usize) -> [u8; 32]
    requires { at + 32 ≤ length s.now }
    ensures { result ≡ part 32 at s.now }
{
    let w = read(s, at);
    w.bytes
}
