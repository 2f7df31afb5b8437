// What any list of calls at a recorder does: statements and proofs alone. The operations are crate `recorder`.
#![tactic(auto)]
