// What people link: each function of the library export_dequmlo, exported to C under its own name and with its own clauses (tools/exports).
// include/dequmlo.h declares them.
#![tactic(auto)]

pub mod blocks;
pub mod coding;
pub mod hashing;
pub mod parameters;
pub mod parts;
pub mod records;
pub mod ring;
pub mod sizes;
pub mod trees;
