// Query and tail records: definitions and laws, and the types that they share with the code. The specs are in specs/, the laws in proofs/.
#![tactic(auto)]

use theory_blake3::Mode;

// The sets of group widths that a deposit chooses from: the present one, of 8 values from length 16 on, and the wide one, of 32 from length 64 on.
#[derive(Clone, Copy, Debug, PartialEq, Eq)]
pub enum WidthSet {
    Present,
    Wide,
}

// How the trees of a deposit are made: the widths of its groups, and the mode that everything in them is hashed under.
#[derive(Clone, Copy)]
pub struct Trees {
    pub set: WidthSet,
    pub mode: Mode,
}

// What a deposit fixes, as it is lent: how its trees are made, its base domain, and its sizes, a table of 2^n words under 2^k blocks.
#[derive(Clone, Copy)]
pub struct Deposit<'a> {
    pub how: Trees,
    pub base: &'a [u8],
    pub n: usize,
    pub k: usize,
}
