// Definitions and laws only (specs/, proofs/): tables, their multilinear extensions, the code, ring switching. There is no code here.
#![tactic(auto)]
