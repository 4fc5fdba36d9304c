// The field GF(2^128): specs/ has the definition, from SP 800-38D's polynomial, and proofs/ its laws. The code is in gf128.
#![tactic(auto)]
