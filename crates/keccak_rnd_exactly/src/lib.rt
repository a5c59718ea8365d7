// No code: proofs/ shows that of the 1,172 rules of a round row exactly the 929 of keccak_rnd_needed are needed, each by itself, and that of the 911 tuples of keccak_rnd_lean no further one can be dropped.
#![tactic(auto)]
