// What is sound in a page area.
#![tactic(auto)]

pub mod sound;
