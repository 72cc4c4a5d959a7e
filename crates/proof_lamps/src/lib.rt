// Proof only: lamps are served. The statement is in rules/specs/Lamps.antt. See proofs/.
#![tactic(auto)]
