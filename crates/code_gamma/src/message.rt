// The messages of the gammas, fed to a chunk's state. These are helpers: each requires that there is room in the chunk.
ghost use Rattle.std.specs.Prelude.{◌≡◌, ◌≤◌, length};
ghost use Rattle.theory_laws.specs.Lists.{le_bytes};
ghost use Rattle.theory_blake3.specs.Compression as C;
ghost use Rattle.hash_chunk.specs.State as S;
ghost use Rattle.hash_chunk.specs.helpers.Room.{Fits};
ghost use Rattle.theory_merkle.specs.Message.{prefixed};
ghost use Rattle.theory_code.specs.Gammas.{gamma_message};
ghost use Rattle.code_gamma.specs.helpers.Prefix.{gamma_prefix, gamma_rest};

use hash_chunk::state::ChunkState;
use hash_compress::iv;
use theory_blake3::Mode;

// A number more, as a part of eight bytes.
fn feed_number_part(s: ChunkState, x: u64) -> ChunkState
    requires { Fits s 16 }
    ensures { result ≡ S.fed s (prefixed (le_bytes 8 x)) }
{
    let t = s.feed_number(8);
    t.feed_number(x)
}

// What the messages have in common: the count of 6, the label, the base domain, n and k.
pub fn prefix(n: usize, k: usize, domain: &[u8]) -> ChunkState
    requires { length domain.now ≤ 200 }
    ensures { result ≡ S.fed (S.started C.iv 0 0) (gamma_prefix domain.now n k) }
{
    let empty = ChunkState::start(
        Mode {
            key: iv(),
            flags: 0,
        },
        0,
    );
    let counted = empty.feed_number(6);
    let labelled = counted.feed_part(b"magnetar/pcs/gamma/v1");
    let named = labelled.feed_part(domain);
    let sized = feed_number_part(named, n as u64);
    feed_number_part(sized, k as u64)
}

// The whole message: j and i after the prefix.
pub fn whole(common: ChunkState, j: usize, i: usize) -> ChunkState
    requires { Fits common 32 }
    ensures { result ≡ S.fed common (gamma_rest j i) }
{
    let outer = feed_number_part(common, j as u64);
    feed_number_part(outer, i as u64)
}

// How many bytes the message of the gamma (j, i) has.
pub fn size(n: usize, k: usize, domain: &[u8], j: usize, i: usize) -> usize
    requires { length domain.now ≤ 200 }
    ensures { result ≡ length (gamma_message domain.now n k j i) }
{
    let message = whole(prefix(n, k, domain), j, i);
    64 * message.blocks + message.fill
}
