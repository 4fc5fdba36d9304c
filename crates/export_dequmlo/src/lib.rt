// The library that people link: the seal's jobs, which export_dequmlo_c exports to C under the prefix `dequmlo_`. Each function is one call of an entry
// and has that entry's contract, its refusal as a number; include/dequmlo.h declares them. A lent slice is a pointer and a length; lent buffers must
// not overlap. A set of widths is a number, and one that names none is refused with 4 before the call. A key of trees comes by value, first.
#![tactic(auto)]

mod answers;
pub mod blocks;
pub mod coding;
pub mod hashing;
pub mod keys;
pub mod parameters;
pub mod parts;
pub mod records;
pub mod ring;
pub mod sets;
pub mod sizes;
pub mod trees;
