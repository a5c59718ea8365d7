// No code: proofs/ has the statements of the project, each beside the sentence that asks for it.
#![tactic(auto)]
