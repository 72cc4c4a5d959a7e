// Proof only: what the trace program prints, part by part, is the trace of the rules. The statement is in specs/TraceRuns.antt, the theorem in
// proofs/TraceRuns.antt.
#![tactic(auto)]
