// The numbers that entries answer: those of SPECIFICATION 8.2, and 20 is none of them (specs/Entries, proofs/Entries). There is no code here.
#![tactic(auto)]
