// Proof only: a run may be computed without testing the times of the state in each step. The law is in proofs/QuickRuns.antt. Crates whose worked cases are
// computed use it.
#![tactic(auto)]
