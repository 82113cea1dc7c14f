// What an abort tests and changes: the undoing records, and the restored copies.
#![tactic(auto)]

mod aborting;
mod restoring;
mod undoing;

pub use aborting::{abort_apply, abort_check};
