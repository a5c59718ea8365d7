// No code: specs/ says what two tables are that deceive a verdict without rule j, and proofs/ that there are some for each needed rule.
#![tactic(auto)]
