// Kind 3 of a personality: the signal groups.
#![tactic(auto)]

pub mod records;
pub mod sets;
