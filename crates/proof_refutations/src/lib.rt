// Proof only: demand 3 is false of controllers that must not pass. They are defined in specs/Faults.antt; the statement is in
// specs/Refutations.antt, the theorem in proofs/Refutations.antt.
#![tactic(auto)]
