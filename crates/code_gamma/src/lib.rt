// The gammas of a base domain, after CodeParams::derive of code.rs.
#![tactic(auto)]

pub mod message;

ghost use Rattle.std.specs.Prelude.{◌≡◌, ◌*◌, ◌≤◌, length};
ghost use Rattle.theory_laws.specs.Lists.{part, le_value};
ghost use Rattle.theory_laws.specs.Questions.{on_done};
ghost use Rattle.theory_laws.specs.Refusals.{answered};
ghost use Rattle.theory_blake3.specs.Digest.{hash};
ghost use Rattle.hash_chunk.specs.State as S;
ghost use Rattle.hash_chunk.specs.helpers.Room.{Fits};
ghost use Rattle.theory_field.specs.Words.{words};
ghost use Rattle.field_gf128.specs.Word.{word};
ghost use Rattle.theory_code.specs.Gammas.{gammas};
ghost use Rattle.code_gamma.specs.helpers.Prefix.{gamma_rest};
ghost use Rattle.theory_code.specs.Questions.{derive_number};

use field_gf128::Word;
use hash_chunk::state::ChunkState;
use message::{prefix, whole};
use theory_laws::Refusal;

// The gamma of (j, i): the first 16 bytes of the digest of the prefix, j and i.
fn gamma_at(common: ChunkState, j: usize, i: usize) -> Word
    requires { Fits common 32 }
    ensures { word result ≡ le_value (part 16 0 (S.finished (S.fed common (gamma_rest j i)))) }
{
    let message = whole(common, j, i);
    let digest = message.finish();
    field_bytes::word_at(&digest, 0)
}

// The gammas, j outer, once the questions are answered.
fn fill(n: usize, k: usize, domain: &[u8], out: &mut [u64])
    requires { (length domain.now ≤ 200) × (k * n ≤ 80) × (length out.old ≡ 2 * (k * n)) }
    ensures { words out.new ≡ gammas hash domain.now n k }
{
    let common = prefix(n, k, domain);
    for v in 0..k * n {
        let g = gamma_at(common, v / n, v % n);
        field_words::put(out, v, g);
    }
}

// The questions of `derive`.
fn questions(n: usize, k: usize, domain: usize, out: usize) -> Result<(), Refusal>
    ensures { answered result ≡ derive_number n k domain out }
{
    if n > 20 {
        return Err(Refusal::Parameters);
    }
    if k > 4 {
        return Err(Refusal::Parameters);
    }
    if out != 2 * (k * n) {
        return Err(Refusal::Length);
    }
    if domain > 200 {
        return Err(Refusal::Domain);
    }
    Ok(())
}

// The gammas of a base domain: k × n words, j outer. It refuses n past 20 or k past 4 with 4, room that is not theirs with 5, and a base
// domain of more than 200 bytes with 7.
pub fn derive(n: usize, k: usize, domain: &[u8], out: &mut [u64]) -> Result<(), Refusal>
    ensures value { answered result ≡ derive_number n k (length domain.now) (length out.old) }
    ensures out_after { words out.new ≡ on_done (answered result) (gammas hash domain.now n k) (words out.old) }
{
    questions(n, k, domain.len(), out.len())?;
    fill(n, k, domain, out);
    Ok(())
}
