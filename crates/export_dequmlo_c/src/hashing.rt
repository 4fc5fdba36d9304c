// The digest in one call, in hash mode and in keyed mode, and the key that key derivation gives.
ghost use Rattle.std.specs.Prelude.{◌≡◌};
ghost use Rattle.theory_blake3.specs.Compression as C;
ghost use Rattle.hash_hasher.specs.Whole as S;
ghost use Rattle.hash_modes.specs.Answers.{keyed_digest_of, derived_key_of};
ghost use Rattle.export_dequmlo.specs.Answers.{digested};

use export_dequmlo::hashing::Digested;

// The BLAKE3 digest of a slice: 13 for more than 2^24 bytes.
#[unsafe(no_mangle)]
pub extern "C" fn dequmlo_digest(input: &[u8]) -> Digested
    ensures { digested result ≡ S.digest_of C.iv 0 input.now }
{
    export_dequmlo::hashing::dequmlo_digest(input)
}

// The digest of a slice in keyed mode: 5 where the key is not 32 bytes, 13 for more than 2^24 bytes.
#[unsafe(no_mangle)]
pub extern "C" fn dequmlo_keyed_digest(key: &[u8], input: &[u8]) -> Digested
    ensures { digested result ≡ keyed_digest_of key.now input.now }
{
    export_dequmlo::hashing::dequmlo_keyed_digest(key, input)
}

// The key that a context and key material give: 13 for more than 2^24 bytes of either.
#[unsafe(no_mangle)]
pub extern "C" fn dequmlo_derive_key(context: &[u8], material: &[u8]) -> Digested
    ensures { digested result ≡ derived_key_of context.now material.now }
{
    export_dequmlo::hashing::dequmlo_derive_key(context, material)
}
