// Proof only: while a demand that a step registers waits, no phase starts twice. The statement is in rules/specs/OnceEach.antt. See proofs/.
#![tactic(auto)]
