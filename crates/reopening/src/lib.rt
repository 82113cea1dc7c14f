// Reopening after a cut: what the stored pages and the stable records give, and the steps that make it stable. What each call tests and
// changes.
#![tactic(auto)]

ghost use Rattle.std.specs.Prelude.{◌≡◌, true, [], ◌+◌, ◌*◌, ◌<◌, ◌≤◌, length, set};
ghost use Rattle.words.specs.Tests.{if};
ghost use Rattle.pages.specs.Geometry.{max_pages, page_words, page_at};
ghost use Rattle.pages.specs.Objects.{copied_page};
ghost use Rattle.records.specs.Records.{record_words};
ghost use Rattle.records.specs.Soundness.{records_sound};
ghost use Rattle.records.specs.Order.{open_in};
ghost use Rattle.records.specs.Recovery.{recovered};
ghost use Rattle.areas.specs.Answers.{verdict};
ghost use Rattle.areas.specs.Areas.{areas, count_words};
ghost use Rattle.areas.specs.Layout.{HasUndoing, reopening_at, reopening_page_at, finished};
ghost use Rattle.calls.specs.Reopening.{restep_tests};
ghost use Rattle.stability.specs.Checks.{unnoted};
ghost use Rattle.reopening.specs.Reopens.{free_after};

use areas::{Check, Refusal, layout};
use pages::{MAX_PAGES, PAGE_WORDS};

// Room for the pages of a small, a middle and a large store: to clear more than it takes would take longer than to reopen it.
const SMALL_WORDS: usize = 16 * PAGE_WORDS;

const MIDDLE_WORDS: usize = 64 * PAGE_WORDS;

const LARGE_WORDS: usize = MAX_PAGES * PAGE_WORDS;

// Copies and received pages of a store of n pages become what the stored pages and the first c records give, if its free slots are
// zero; answers whether they are. The pages are made in room, since nothing lent may change before that is known.
fn recover_in(
    stored: &[u32],
    copies: &mut [u32],
    received: &mut [u32],
    log: &[u32],
    room: &mut [u32],
    n: usize,
    c: usize,
    m: u32,
) -> bool
    requires { (length room.old ≡ length stored.now) × (length copies.old ≡ length stored.now) × (length received.old ≡ length stored.now) × (length stored.now ≡ page_words * n) × (record_words * c ≤ length log.now) × (records_sound n log.now c ≡ true) × (m ≡ open_in log.now c) }
    ensures { (result ≡ free_after stored.now log.now n c) × (copies.new ≡ if result (recovered stored.now log.now c) copies.old) × (received.new ≡ if result (recovered stored.now log.now c) received.old) }
{
    if !log_replay::recover(stored, room, log, n, c, m) {
        return false;
    }
    page_ops::areas::copy_area(room, received);
    page_ops::areas::copy_area(room, copies);
    true
}

// The same, with room of its own, of ROOM words: it is cleared first, so that no more of it is taken than the store needs.
fn recover_within<const ROOM: usize>(
    stored: &[u32],
    copies: &mut [u32],
    received: &mut [u32],
    log: &[u32],
    n: usize,
    c: usize,
    m: u32,
) -> bool
    requires { (length stored.now ≤ ROOM) × (ROOM ≤ max_pages * page_words) × (length copies.old ≡ length stored.now) × (length received.old ≡ length stored.now) × (length stored.now ≡ page_words * n) × (record_words * c ≤ length log.now) × (records_sound n log.now c ≡ true) × (m ≡ open_in log.now c) }
    ensures { (result ≡ free_after stored.now log.now n c) × (copies.new ≡ if result (recovered stored.now log.now c) copies.old) × (received.new ≡ if result (recovered stored.now log.now c) received.old) }
{
    let mut room = [0u32; ROOM];
    recover_in(
        stored,
        copies,
        received,
        log,
        &mut room[..stored.len()],
        n,
        c,
        m,
    )
}

// The same, with room as small as the store allows.
pub fn recover_both(
    stored: &[u32],
    copies: &mut [u32],
    received: &mut [u32],
    log: &[u32],
    n: usize,
    c: usize,
    m: u32,
) -> bool
    requires { (n ≤ max_pages) × (length copies.old ≡ length stored.now) × (length received.old ≡ length stored.now) × (length stored.now ≡ page_words * n) × (record_words * c ≤ length log.now) × (records_sound n log.now c ≡ true) × (m ≡ open_in log.now c) }
    ensures { (result ≡ free_after stored.now log.now n c) × (copies.new ≡ if result (recovered stored.now log.now c) copies.old) × (received.new ≡ if result (recovered stored.now log.now c) received.old) }
{
    if stored.len() <= SMALL_WORDS {
        return recover_within::<SMALL_WORDS>(stored, copies, received, log, n, c, m);
    }
    if stored.len() <= MIDDLE_WORDS {
        return recover_within::<MIDDLE_WORDS>(stored, copies, received, log, n, c, m);
    }
    recover_within::<LARGE_WORDS>(stored, copies, received, log, n, c, m)
}

// Refusal 4 of a reopening step: none is running.
pub fn restep_check(work: &[u32]) -> Check
    requires { reopening_at < length work.now }
    ensures { result ≡ verdict (restep_tests (areas [] [] [] [] [] work.now)) }
{
    if work[layout::REOPENING_AT] == layout::RUNNING {
        return Ok(());
    }
    Err(Refusal::WrongState)
}

// Page p is stored, and the next one's turn comes.
pub fn store_next(stored: &mut [u32], copies: &[u32], work: &mut [u32], p: u32)
    requires { (p < max_pages) × (page_at p + page_words ≤ length copies.now) × (page_at p + page_words ≤ length stored.old) × (reopening_page_at < length work.old) }
    ensures { (stored.new ≡ copied_page copies.now stored.old p) × (work.new ≡ set work.old reopening_page_at (p + 1)) }
{
    page_ops::copy::copy_page(copies, stored, p as usize);
    work[layout::REOPENING_PAGE_AT] = p + 1;
}

// The log of l records becomes empty, and the reopening of a store of n pages finished.
pub fn finish(counts: &mut [u32], work: &mut [u32], n: usize, l: usize)
    requires { (count_words ≤ length counts.old) × HasUndoing work.old n l }
    ensures { (counts.new ≡ set (set counts.old 0 0) 1 0) × (work.new ≡ set (set (unnoted work.old n l) reopening_at finished) reopening_page_at 0) }
{
    stability::empty(counts, work, n, l);
    work[layout::REOPENING_AT] = layout::FINISHED;
    work[layout::REOPENING_PAGE_AT] = 0;
}
