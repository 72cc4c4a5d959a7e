// Proof only: a step in which other times take over is a plain step under them, and what follows from it for timed states. See proofs/.
#![tactic(auto)]
