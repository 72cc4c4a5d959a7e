// Proof only: how far a demanded phase is along the ring of phases. See proofs/.
#![tactic(auto)]
