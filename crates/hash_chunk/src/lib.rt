// A chunk of BLAKE3, of at most 1024 bytes: over a slice, and fed piece by piece. These are helpers for the crates above, and some
// require: they are not for export.
#![tactic(auto)]

pub mod slice;
pub mod state;
