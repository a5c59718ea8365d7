// No code: proofs/ says how a segment that the calls filled fares at a prover's challenges, and one that is wrong in the field of p^3 elements.
#![tactic(auto)]
