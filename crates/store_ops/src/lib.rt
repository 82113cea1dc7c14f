// What calls share of the working tables: masks, locks and colours.
#![tactic(auto)]

mod tables;

pub use tables::{
    can_read, can_write, gain, has, is_object, knows, leave_all, lose, may_mark, pass_end,
    pass_first, turn_grey,
};
