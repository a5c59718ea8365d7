// No code: specs/ says which elements of two runs have partners, by counts and one by one, and proofs/ that both are the same.
#![tactic(auto)]
