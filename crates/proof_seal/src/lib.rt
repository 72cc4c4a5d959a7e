// Proof only: what sealing and resuming promise over the bytes of the board interface. Statements in specs, proofs in proofs.
#![tactic(auto)]
