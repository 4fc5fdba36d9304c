// The small values of SPECIFICATION 12.1, proved of the definitions together (specs/Cases, proofs/Cases). There is no code here.
#![tactic(auto)]
