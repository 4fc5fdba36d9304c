// Keys of trees, which C lends by value, and how trees are made under one and a set of widths.
ghost use Rattle.std.specs.Prelude.{◌≡◌};
ghost use Rattle.export_dequmlo.specs.Keys.{mode_of, trees_of, MadeBy, Deposited};

use crate::sets::{set_named, set_of};
use hash_modes::{hash_mode, keyed_mode};
use theory_blake3::Mode;
use theory_laws::Refusal;
use theory_record::{Deposit, Trees};
use tree_digest::Hashing;

// A key, or none: 0 is none, and then the bytes count for nothing; every other number says that the bytes are the key.
#[repr(C)]
#[derive(Clone, Copy)]
pub struct Key {
    pub keyed: u32,
    pub bytes: [u8; 32],
}

// The mode of trees under a key or none.
pub fn mode_of(key: Key) -> Mode
    ensures { result ≡ mode_of key }
{
    if key.keyed == 0 {
        return hash_mode();
    }
    let bytes = key.bytes;
    keyed_mode(bytes)
}

// How a tree is hashed under a key or none, of a domain.
pub fn hashing_of(key: Key, domain: &[u8]) -> Hashing<'_>
    ensures mode_value { result.mode ≡ mode_of key }
    ensures domain_value { result.domain.now ≡ domain.now }
{
    Hashing {
        mode: mode_of(key),
        domain,
    }
}

// How trees are made under a key or none and the set that a number names.
pub fn trees_of(key: Key, widths: u32) -> Trees
    ensures { result ≡ trees_of key widths }
{
    let set = set_of(widths);
    let mode = mode_of(key);
    Trees { set, mode }
}

// The same; 4 where the number names no set.
pub fn trees_named(key: Key, widths: u32) -> Result<Trees, Refusal>
    ensures { MadeBy key widths result }
{
    set_named(widths)?;
    Ok(trees_of(key, widths))
}

// A deposit with trees so made, its base domain, n and k; 4 where the number names no set.
pub fn deposit_of(
    key: Key,
    widths: u32,
    base: &[u8],
    n: usize,
    k: usize,
) -> Result<Deposit<'_>, Refusal>
    ensures { Deposited key widths base n k result }
{
    let how = trees_named(key, widths)?;
    Ok(Deposit { how, base, n, k })
}
