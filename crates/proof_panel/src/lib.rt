// The theorems of the panel's line. This crate has no function.
#![tactic(auto)]
