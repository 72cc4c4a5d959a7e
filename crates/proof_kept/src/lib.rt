// Proof only: the kept set of demanded phases is the scan, and a step that keeps it does the same to the rest of the state as the scanning
// step. See proofs/.
#![tactic(auto)]
