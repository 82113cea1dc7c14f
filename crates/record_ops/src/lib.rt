// Log records: what they do, the record that undoes one, where one is written, and the pages that they name.
#![tactic(auto)]

mod effects;
mod naming;

pub use effects::{apply, put_record, take_back, undoing};
pub use naming::{last_naming, names_page, page_named};
