// No code: with 911 tuples to a round row instead of 1,031, what demand 3 claims of two tables still holds.
#![tactic(auto)]
