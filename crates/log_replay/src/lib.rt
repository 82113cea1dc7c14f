// What stored pages and stable records give: the log read and checked, and the pages that it leaves.
#![tactic(auto)]

mod check;
mod making;
mod reading;
mod word_scan;

pub use check::find_open;
pub use making::{recover, restart};
