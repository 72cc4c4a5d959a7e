// Proof only: the waits of the example sites as numbers, and a run of one of them in which a lock and a button wait exactly that long. The statements are
// in specs/WaitCases.antt, the proofs in proofs/WaitCases.antt.
#![tactic(auto)]
