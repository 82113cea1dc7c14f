// Bits of a word.
#![tactic(auto)]

pub mod bits;
