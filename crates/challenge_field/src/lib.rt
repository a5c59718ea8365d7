// No code: specs/ says what a field of p^3 elements is, and proofs/ that it is one from which challenges can be drawn.
#![tactic(auto)]
