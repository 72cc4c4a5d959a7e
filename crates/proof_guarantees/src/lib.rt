// Proof only: what is promised of every accepted personality. Demand 3 over lists of step and retiming calls is stated in
// rules/specs/DemandThree.antt and proved in proofs/DemandThree.antt; that over lists of step calls alone, in rules/specs/StepDemandThree.antt,
// follows from it in proofs/StepDemandThree.antt. The other statements are in rules/specs/Laws.antt, TimedLaws.antt and Scanning.antt.
#![tactic(auto)]
