// Proof only: all promises that are theorems, as one record and one term of it. The record is in specs/Promises.antt, the term in proofs/Promises.antt. A theorem with
// another type than its statement, with a premise for one, is refused there.
#![tactic(auto)]
