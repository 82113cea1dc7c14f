// What accepted creates and sets of objects do.
#![tactic(auto)]

mod creating;
mod setting;

pub use creating::create_apply;
pub use setting::set_apply;
