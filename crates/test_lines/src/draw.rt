// Inputs drawn by splitmix64 from a stream's number, each number by its place alone. oracle/src/stream.rs and tools/lines.py draw the same.
use field_gf128::Word;

// Number i of a stream.
fn number(stream: u64, i: u64) -> u64 {
    let x = stream.wrapping_add(i.wrapping_add(1).wrapping_mul(0x9e37_79b9_7f4a_7c15));
    let y = (x ^ (x >> 30)).wrapping_mul(0xbf58_476d_1ce4_e5b9);
    let z = (y ^ (y >> 27)).wrapping_mul(0x94d0_49bb_1331_11eb);
    z ^ (z >> 31)
}

// A word of two halves, as a kind from 0 to 15 says: mostly both, sometimes a word on which halves or single bits show.
fn shown(kind: u64, lo: u64, hi: u64) -> Word {
    let one: u64 = 1;
    match kind {
        0 => Word { lo: 0, hi: 0 },
        1 => Word { lo: 1, hi: 0 },
        2 => Word {
            lo: u64::MAX,
            hi: u64::MAX,
        },
        3 => Word { lo, hi: 0 },
        4 => Word { lo: 0, hi },
        5 => Word {
            lo: one << (lo % 64),
            hi: 0,
        },
        6 => Word {
            lo: 0,
            hi: one << (hi % 64),
        },
        _ => Word { lo, hi },
    }
}

// Word i of a stream.
pub fn word(stream: u64, i: u64) -> Word {
    let at = i.wrapping_mul(3);
    let kind = number(stream, at.wrapping_add(2)) % 16;
    shown(kind, number(stream, at), number(stream, at.wrapping_add(1)))
}

// Byte i of a stream of bytes that are 0 or 1, of printable characters, or of any bytes.
pub fn byte(kind: u8, stream: u64, i: u64) -> u8 {
    let x = number(stream, i);
    match kind {
        b'i' => (x % 2) as u8,
        b't' => (32 + x % 95) as u8,
        _ => (x % 256) as u8,
    }
}
