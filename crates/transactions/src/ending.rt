ghost use Rattle.std.specs.Prelude.{◌≡◌, [], ◌+◌, ◌<◌, ◌≤◌, length};
ghost use Rattle.records.specs.Records.{txn_count, max_records};
ghost use Rattle.areas.specs.Areas.{areas};
ghost use Rattle.areas.specs.Layout.{HasUndoing};
ghost use Rattle.calls.specs.Room.{room_within};
ghost use Rattle.calls.specs.Transactions.{without_marks, ended_tables};

use super::clients::note_client;
use areas::layout;
use records::RECORD_WORDS;

// Whether k more records fit.
pub fn room_within(log: &[u32], counts: &[u32], k: usize) -> bool
    requires { (0 < length counts.now) × (k ≤ max_records + 1) }
    ensures { result ≡ room_within (areas [] [] [] log.now counts.now []) k }
{
    counts[layout::RECEIVED] as usize + k <= log.len() / RECORD_WORDS
}

// t's marks end with it.
fn end_marks(work: &mut [u32], n: usize, t: u32)
    requires { HasUndoing work.old n 0 × (t < txn_count) }
    ensures { work.new ≡ without_marks work.old n t }
{
    let k = layout::MARKS as usize;
    page_ops::areas::clear_words(work, layout::marked_at(n, t as usize, 0), k);
    page_ops::areas::clear_words(work, layout::order_at(n, t as usize, 0), k);
}

// The tables once t has ended. The masks of readers, writers, unflushed records and known objects are one run, those of the PRT and
// the COT another.
pub fn end_tables(work: &mut [u32], n: usize, t: u32)
    requires { HasUndoing work.old n 0 × (0 < n) × (t < txn_count) }
    ensures { work.new ≡ ended_tables work.old n t }
{
    let masks = layout::readers_at(n, 0);
    let entries = layout::pruned_at(n, 1);
    let end = layout::colour_at(n, 1);
    store_ops::lose(work, layout::ACTIVE_AT, t);
    store_ops::leave_all(work, masks, entries - masks, t);
    ended_entries::end_entries(work, entries, end - entries, t);
    end_marks(work, n, t);
    note_client(work, n, t, 0);
}
