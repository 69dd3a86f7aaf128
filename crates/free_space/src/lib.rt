// No code: the crate is its definitions (specs/) and their laws (proofs/).
#![tactic(auto)]
