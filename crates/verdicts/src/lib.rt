// Statements and proofs alone: what a verdict says, and that what our own engine writes is accepted (02, E12).
#![tactic(auto)]
