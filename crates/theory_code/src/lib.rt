// The gammas and the questions of the code: definitions and laws. There is no code: specs/ has the definitions, proofs/ the laws.
#![tactic(auto)]
