// General definitions and laws, without traffic: folds over the numbers 0 to n - 1, bytes and bits, sets in one byte. This crate has no
// function.
#![tactic(auto)]
