// No code: proofs/Sent.antt says what the IS_WH table of a list's keys receives, proofs/Charge.antt what charging adds to a counter.
#![tactic(auto)]
