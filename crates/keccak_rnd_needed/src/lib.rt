// No code: specs/ says which 929 rules of a round row are needed, and proofs/ that dropping any one of them lets a false row pass.
#![tactic(auto)]
