// The types of the papers, by value. This crate has no function: src/ declares sites, states and answers, and specs/ has the rules of
// documents 01 and 02 as definitions. All times, ages and counts are in steps of 0.1 s.
#![tactic(auto)]

pub mod answer;
pub mod site;
pub mod state;
