// What begin and commit test and change, and the working tables of a transaction that ends.
#![tactic(auto)]

mod beginning;
mod clients;
mod committing;
mod ending;

pub use beginning::{begin_apply, begin_check};
pub use committing::{commit_apply, commit_check};
pub use ending::{end_tables, room_within};
