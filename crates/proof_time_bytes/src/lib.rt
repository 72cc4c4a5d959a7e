// Proof only: personalities that differ in time settings alone. See proofs/.
#![tactic(auto)]
