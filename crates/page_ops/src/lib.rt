// Page areas: their changes one object at a time, copies of whole pages, and areas as a whole.
#![tactic(auto)]

pub mod areas;
pub mod change;
pub mod copy;
