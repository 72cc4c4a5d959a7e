// Proof only: the worked cases of documents 01 and 02, the starred ones among them, computed from the rules. The list and its statement are
// in specs/Cases.antt, the proof in proofs/Cases.antt. The cases of one call that refuse the must-fail edits of the rules stand beside
// those, in rules/specs/*Cases.antt.
#![tactic(auto)]
