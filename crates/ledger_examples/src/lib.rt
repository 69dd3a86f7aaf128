// The marked examples of document 01 and others like them, and the wrong servers that demand 3 rules out: `specs` and `proofs`.
#![tactic(auto)]
