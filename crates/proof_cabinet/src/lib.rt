// The theorems of the cabinet: every site in it runs as it would alone, with new times handed over at any moment, and no two placed sites share an
// output. Statements in specs, proofs in proofs. No function.
#![tactic(auto)]
