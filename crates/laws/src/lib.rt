#![tactic(auto)]

// Definitions (specs/) and lemmas (proofs/) that more than one crate cites. No code.
