// What is sound in a log record: each of its six words by itself, and whether it may come where it stands.
#![tactic(auto)]

mod order;
mod sound;

pub use order::{in_order, open_next};
pub use sound::word_sound;

// The widths of a page, as words of a record are compared with them, and where the root is.
const SLOTS: u32 = pages::SLOTS as u32;

const SLOT_WORDS: u32 = pages::SLOT_WORDS as u32;

const REF_WORDS: u32 = pages::REF_WORDS as u32;

const ROOT_PAGE: u32 = (pages::ROOT - 1) / SLOTS;

const ROOT_SLOT: usize = (pages::ROOT - 1) as usize % pages::SLOTS;
