// Proof only: demand 3 over the bytes and numbers that cross the boundary of the board's library. The statements are in
// specs/BoardRuns.antt, the theorems in proofs/BoardRuns.antt.
#![tactic(auto)]
