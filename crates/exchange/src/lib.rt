// Two ends of a cable: what every list of rounds leads to, and what stands beside it. It has statements and proofs alone; a round as
// a function is crate `rounds`.
#![tactic(auto)]
