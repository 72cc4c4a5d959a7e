// Proofs about the simulated road. No function.
#![tactic(auto)]
