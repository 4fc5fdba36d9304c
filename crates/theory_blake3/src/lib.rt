// The definition of BLAKE3 and its laws, and the one type that they share with the code: specs/ has the definition, in the order and the terms
// of the BLAKE3 specification, and proofs/ its laws.
#![tactic(auto)]

// A mode of BLAKE3: the key words from which the chunks of a message start, and the flags that all its compressions have.
#[derive(Clone, Copy)]
pub struct Mode {
    pub key: [u32; 8],
    pub flags: u32,
}
