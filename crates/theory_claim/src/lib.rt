// The single claim (SPECIFICATION 10), stated in specs/Claim and proved in proofs/Claim. There is no code here.
#![tactic(auto)]
