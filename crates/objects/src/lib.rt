// What accepted reads of objects and flushes of pages do.
#![tactic(auto)]

mod flushing;
mod reading;

pub use flushing::flush_apply;
pub use reading::read_apply;
