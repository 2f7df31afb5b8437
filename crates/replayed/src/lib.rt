// Statements and proofs alone: what the report on a capture says (02, E8).
#![tactic(auto)]
