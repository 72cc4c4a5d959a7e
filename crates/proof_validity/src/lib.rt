// Proof only: the fresh state is valid, and a step from a valid state leads to a valid state. See proofs/.
#![tactic(auto)]
