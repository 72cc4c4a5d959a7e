// Proof only: what an accepted step shows and what it leaves of a clearance, for parts a and b of demand 3. See proofs/.
#![tactic(auto)]
