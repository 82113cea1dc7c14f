ghost use Rattle.std.specs.Prelude.{◌≡◌, ◌+◌, ◌*◌, ◌<◌, ◌≤◌, length};
ghost use Rattle.pages.specs.Geometry.{page_words, page_at};
ghost use Rattle.pages.specs.Objects.{copied_page};
ghost use Rattle.records.specs.Records.{txn_count};
ghost use Rattle.areas.specs.Layout.{HasTables, unflushed_at};
ghost use Rattle.areas.specs.Tables.{lose};

use areas::layout;
use page_rows::rows;
use pages::PAGE_WORDS;

// Page p of the received pages, into the copies: its map, and its rows by value.
fn copy_rows(received: &[u32], copies: &mut [u32], p: usize)
    requires { (page_at p + page_words ≤ length received.now) × (page_at p + page_words ≤ length copies.old) }
    ensures { copies.new ≡ copied_page received.now copies.old p }
{
    copies[PAGE_WORDS * p] = received[PAGE_WORDS * p];
    rows::put_rows(copies, p, rows::rows_of(received, p));
}

// What an accepted flush does: the page copy becomes the received page, and t has no record of it not flushed.
pub fn flush_apply(received: &[u32], copies: &mut [u32], work: &mut [u32], n: usize, t: u32, p: u32)
    requires { (page_words * n ≤ length received.now) × (page_words * n ≤ length copies.old) × HasTables work.old n × (t < txn_count) × (p < n) }
    ensures { (copies.new ≡ copied_page received.now copies.old p) × (work.new ≡ lose work.old (unflushed_at n p) t) }
{
    let q = p as usize;
    copy_rows(received, copies, q);
    store_ops::lose(work, layout::unflushed_at(n, q), t);
}
