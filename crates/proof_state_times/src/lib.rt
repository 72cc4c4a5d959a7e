// Proof only: bytes are a state only if the personality would be accepted with the times in them. The statements are in specs/StateTimes.antt. See proofs/.
#![tactic(auto)]
