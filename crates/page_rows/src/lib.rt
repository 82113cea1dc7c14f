// The rows of a page: by value, and beside an image's.
#![tactic(auto)]

pub mod images;
pub mod rows;
