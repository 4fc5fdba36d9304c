// BLAKE3 of up to 2^24 bytes: in one call over a slice, and by a hasher that is fed by repeated calls.
#![tactic(auto)]

pub mod hasher;
pub mod whole;
