// No code: specs/ says which 911 of a round row's 1,031 tuples are kept, and proofs/ that for an active row they are enough.
#![tactic(auto)]
