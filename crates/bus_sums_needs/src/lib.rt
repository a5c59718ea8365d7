// No code: proofs/ says why each condition of SumsHold (crate bus_sums) is there, by tables that pass without it.
#![tactic(auto)]
