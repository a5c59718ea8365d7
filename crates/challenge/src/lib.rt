// No code: specs/ says what a prover adds up at random challenges, and proofs/ that sums which differ pass at few of them.
#![tactic(auto)]
