// No code: what a prover's sums say where the rows of the round table send 911 tuples instead of 1,031.
#![tactic(auto)]
