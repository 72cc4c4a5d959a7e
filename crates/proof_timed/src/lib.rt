// Proof only: demand 3 over lists of step and retiming calls. See proofs/.
#![tactic(auto)]
