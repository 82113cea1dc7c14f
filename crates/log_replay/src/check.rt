ghost use Rattle.std.specs.Prelude.{◌≡◌, ◌*◌, ◌≤◌, length};
ghost use Rattle.pages.specs.Geometry.{max_pages, page_words};
ghost use Rattle.records.specs.Records.{record_words};
ghost use Rattle.log_replay.specs.Reading.{found_of};

use crate::{reading, word_scan};
use areas::Refusal;

// Refusal 14 of a store of n pages and l records but for the pages that they leave: the stable count, the stored pages, the words of
// each record, then their order. Otherwise the transactions still open at the log's end.
#[tactic(auto, using(crate::specs::Reading::found_count, crate::specs::Reading::found_stored, crate::specs::Reading::found_words, crate::specs::Reading::found_read, record_laws::specs::RecordLaws::records_sound_wider))]
pub fn find_open(stored: &[u32], log: &[u32], n: usize, l: usize, c: usize) -> Result<u32, Refusal>
    requires { (1 ≤ n) × (n ≤ max_pages) × (length stored.now ≡ page_words * n) × (length log.now ≡ record_words * l) }
    ensures { result ≡ found_of n l stored.now log.now c }
{
    if l < c || !page_check::sound::area_sound(stored, n) || !word_scan::words_sound(log, n, c) {
        return Err(Refusal::Unsound);
    }
    reading::open_after(log, c)
}
