// Blocks, their product and GHASH: specs/ has the definitions, from SP 800-38D, and proofs/ that they are the field's. The code is in field_blocks.
#![tactic(auto)]
