// Proof only: what a valid state tells, what is known of an accepted step, and when two controllers take every list of calls alike. See proofs/.
#![tactic(auto)]
