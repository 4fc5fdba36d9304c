// Trees over groups of words: definitions and laws over any digest function. There is no code: specs/ has the definitions, proofs/ the laws.
#![tactic(auto)]
