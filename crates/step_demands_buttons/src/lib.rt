// What buttons and movements demand: the presses that are registered, and the phases of the demanded movements.
#![tactic(auto)]

pub mod buttons;
pub mod movements;
