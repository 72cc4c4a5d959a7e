// Proof only: what one step shows, and how minimum green and a walk go on in it. It serves proof_lamps. See proofs/.
#![tactic(auto)]
