// A job record written from values, and read back: definitions and proofs only.
#![tactic(auto)]
