// The invariants of a port (port/Sound), which every event keeps: proofs alone.
#![tactic(auto)]
