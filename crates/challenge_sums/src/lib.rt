// No code: specs/ lists the tuples of all tables for the one sum of a prover, and proofs/ says that the sums of every bus agree where it passes.
#![tactic(auto)]
