// Proof only: what acceptance of a personality tells of its site, which refusals there are, and how long a personality and how large a wait bound
// can be. See proofs/.
#![tactic(auto)]
