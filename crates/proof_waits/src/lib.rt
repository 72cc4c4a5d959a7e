// Proof only: a step meets a demand or leaves one step less of its wait, and never more than the wait bound is left. See proofs/.
#![tactic(auto)]
