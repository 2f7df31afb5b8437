// What Syncd says of two ends (02, E7). This crate has statements and proofs alone.
#![tactic(auto)]
