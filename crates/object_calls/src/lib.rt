// Reads, creates, sets and flushes: refusal 1, then the call on a store that is known to be well formed.
#![tactic(auto)]

mod creating;
mod flushing;
mod reading;
mod setting;

pub use creating::{create, held_create};
pub use flushing::{flush, held_flush};
pub use reading::{held_read, read};
pub use setting::{held_set_word, set_word};
