// The modes of BLAKE3 as values, each key words and flags; and keyed mode and key derivation, in one call and by a hasher that is started with a
// key or with a context. The entries are `keyed_digest`, `derive_key`, `keyed_hasher` and `context_hasher`; the other functions are helpers for
// the crates above, and `key_words` and `material_mode` require.
#![tactic(auto)]

ghost use Rattle.std.specs.Prelude.{◌≡◌, ◌≤◌, length};
ghost use Rattle.theory_blake3.specs.Modes.{hash_mode, key_words, keyed_mode, material_mode};
ghost use Rattle.hash_hasher.specs.Whole.{digested};
ghost use Rattle.hash_modes.specs.Answers.{started, keyed_digest_of, derived_key_of, keyed_hasher_of, context_hasher_of};

use hash_compress::iv;
use hash_hasher::hasher::Hasher;
use hash_hasher::whole::{MOST_BYTES, digest_of, digest_with};
use hash_node::{first_eight, last_words};
use theory_blake3::Mode;
use theory_laws::Refusal;

// The flags of the modes, as BLAKE3's specification has them: KEYED_HASH, DERIVE_KEY_CONTEXT and DERIVE_KEY_MATERIAL.
const KEYED: u32 = 16;

const CONTEXT: u32 = 32;

const MATERIAL: u32 = 64;

// Hash mode: no key.
pub fn hash_mode() -> Mode
    ensures { result ≡ hash_mode }
{
    Mode {
        key: iv(),
        flags: 0,
    }
}

// The words of a key.
fn key_words(key: &[u8]) -> [u32; 8]
    requires { length key.now ≡ 32 }
    ensures { result ≡ key_words key.now }
{
    first_eight(last_words(key, 0, 32))
}

// Keyed mode.
pub fn keyed_mode(key: [u8; 32]) -> Mode
    ensures { result ≡ keyed_mode key }
{
    Mode {
        key: key_words(&key),
        flags: KEYED,
    }
}

// The mode for the key material of a context.
pub fn material_mode(context: &[u8]) -> Mode
    requires { length context.now ≤ 16777216 }
    ensures { result ≡ material_mode context.now }
{
    let d = digest_of(
        Mode {
            key: iv(),
            flags: CONTEXT,
        },
        context,
    );
    Mode {
        key: key_words(&d),
        flags: MATERIAL,
    }
}

// The digest of a slice in keyed mode: 5 where the key is not 32 bytes, 13 for more than 2^24 bytes.
pub fn keyed_digest(key: &[u8], input: &[u8]) -> Result<[u8; 32], Refusal>
    ensures { digested result ≡ keyed_digest_of key.now input.now }
{
    if key.len() != 32 {
        return Err(Refusal::Length);
    }
    digest_with(
        Mode {
            key: key_words(key),
            flags: KEYED,
        },
        input,
    )
}

// The key of 32 bytes that a context and key material give: 13 for more than 2^24 bytes of either, the context asked first.
pub fn derive_key(context: &[u8], material: &[u8]) -> Result<[u8; 32], Refusal>
    ensures { digested result ≡ derived_key_of context.now material.now }
{
    if context.len() > MOST_BYTES {
        return Err(Refusal::HashedBytes);
    }
    digest_with(material_mode(context), material)
}

// A hasher that is started with a key: 5 where it is not 32 bytes.
pub fn keyed_hasher(key: &[u8]) -> Result<Hasher, Refusal>
    ensures { started result ≡ keyed_hasher_of key.now }
{
    if key.len() != 32 {
        return Err(Refusal::Length);
    }
    Ok(Hasher::new_with(Mode {
        key: key_words(key),
        flags: KEYED,
    }))
}

// A hasher for the key material of a context: 13 where the context is more than 2^24 bytes.
pub fn context_hasher(context: &[u8]) -> Result<Hasher, Refusal>
    ensures { started result ≡ context_hasher_of context.now }
{
    if context.len() > MOST_BYTES {
        return Err(Refusal::HashedBytes);
    }
    Ok(Hasher::new_with(material_mode(context)))
}
