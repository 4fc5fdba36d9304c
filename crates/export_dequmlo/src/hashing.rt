// The digest in one call, in hash mode and in keyed mode, and the key that key derivation gives.
ghost use Rattle.std.specs.Prelude.{◌≡◌};
ghost use Rattle.theory_blake3.specs.Compression as C;
ghost use Rattle.hash_hasher.specs.Whole as S;
ghost use Rattle.hash_modes.specs.Answers.{keyed_digest_of, derived_key_of};
ghost use Rattle.export_dequmlo.specs.Answers.{digested};

use theory_laws::Refusal;

// The number, and a digest, zeros where it is refused.
#[repr(C)]
#[derive(Clone, Copy, Debug, PartialEq, Eq)]
pub struct Digested {
    pub number: u32,
    pub bytes: [u8; 32],
}

// The answer with a digest.
pub fn digest_answered(answer: Result<[u8; 32], Refusal>) -> Digested
    ensures { digested result ≡ S.digested answer }
{
    match answer {
        Ok(bytes) => Digested { number: 0, bytes },
        Err(refusal) => Digested {
            number: refusal.number(),
            bytes: [0; 32],
        },
    }
}

// The BLAKE3 digest of a slice: 13 for more than 2^24 bytes.
pub fn dequmlo_digest(input: &[u8]) -> Digested
    ensures { digested result ≡ S.digest_of C.iv 0 input.now }
{
    digest_answered(hash_hasher::whole::digest(input))
}

// The digest of a slice in keyed mode: 5 where the key is not 32 bytes, 13 for more than 2^24 bytes.
pub fn dequmlo_keyed_digest(key: &[u8], input: &[u8]) -> Digested
    ensures { digested result ≡ keyed_digest_of key.now input.now }
{
    digest_answered(hash_modes::keyed_digest(key, input))
}

// The key that a context and key material give: 13 for more than 2^24 bytes of either.
pub fn dequmlo_derive_key(context: &[u8], material: &[u8]) -> Digested
    ensures { digested result ≡ derived_key_of context.now material.now }
{
    digest_answered(hash_modes::derive_key(context, material))
}
