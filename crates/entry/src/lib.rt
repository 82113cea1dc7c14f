// Refusals 1 and 2, which every call shares.
#![tactic(auto)]

ghost use Rattle.std.specs.Prelude.{◌≡◌, ◌*◌, ◌<◌, ◌≤◌, length, eqb};
ghost use Rattle.pages.specs.Geometry.{max_pages, page_words};
ghost use Rattle.records.specs.Records.{max_records, record_words};
ghost use Rattle.areas.specs.Areas.{areas, count_words};
ghost use Rattle.areas.specs.Layout.{work_words, reopening_at, finished};
ghost use Rattle.areas.specs.Tables.{at};
ghost use Rattle.areas.specs.Ranges.{lengths_fit, counts_in_range};
ghost use Rattle.areas.specs.Entry.{well_formed};
ghost use Rattle.entry.specs.Range.{range_of};

use areas::layout;
use pages::{MAX_PAGES, PAGE_WORDS};
use records::{MAX_RECORDS, RECORD_WORDS};

// Whether the lengths of the stored pages, copies, received pages, log, counts and working tables agree.
pub fn lengths_fit(s: usize, c: usize, r: usize, g: usize, k: usize, w: usize) -> bool
    ensures { result ≡ lengths_fit s c r g k w }
{
    let n = s / PAGE_WORDS;
    let l = g / RECORD_WORDS;
    ((1 <= n) & (n <= MAX_PAGES) & (s == PAGE_WORDS * n))
        & (c == s)
        & (r == s)
        & ((1 <= l) & (l <= MAX_RECORDS) & (g == RECORD_WORDS * l))
        & (k == layout::COUNT_WORDS)
        & (w == layout::work_words(n, l))
}

// Whether the counts are in range for a log of l records.
fn counts_in_range(counts: &[u32], l: usize) -> bool
    requires { (length counts.now ≡ count_words) × (l ≤ max_records) }
    ensures { result ≡ counts_in_range counts.now l }
{
    (counts[layout::RECEIVED] <= l as u32) & (counts[layout::STABLE] <= counts[layout::RECEIVED])
}

// Whether everything that refusal 1 looks at besides the lengths is in range: n pages, l records. The first area that is not ends it.
fn in_range(
    copies: &[u32],
    received: &[u32],
    log: &[u32],
    counts: &[u32],
    work: &[u32],
    n: usize,
    l: usize,
) -> bool
    requires { (1 ≤ n) × (n ≤ max_pages) × (length copies.now ≡ page_words * n) × (length received.now ≡ page_words * n) × (l ≤ max_records) × (length log.now ≡ record_words * l) × (length counts.now ≡ count_words) × (length work.now ≡ work_words n l) }
    ensures { result ≡ range_of copies.now received.now log.now counts.now work.now n l }
{
    if !counts_in_range(counts, l) {
        return false;
    }
    if !work_ranges::work_in_range(work, n, l) {
        return false;
    }
    if !page_check::sound::area_sound(received, n) {
        return false;
    }
    if !page_check::sound::area_sound(copies, n) {
        return false;
    }
    record_ranges::records_sound(log, n, counts[layout::RECEIVED] as usize)
}

// Refusal 1, without its number. own: the lengths of the call's own buffers are right.
pub fn well_formed(
    stored: &[u32],
    copies: &[u32],
    received: &[u32],
    log: &[u32],
    counts: &[u32],
    work: &[u32],
    own: bool,
) -> bool
    ensures { result ≡ well_formed own (areas stored.now copies.now received.now log.now counts.now work.now) }
{
    let fits = lengths_fit(
        stored.len(),
        copies.len(),
        received.len(),
        log.len(),
        counts.len(),
        work.len(),
    );
    if !(own & fits) {
        return false;
    }
    if work[layout::REOPENING_AT] == 0 {
        return true;
    }
    in_range(
        copies,
        received,
        log,
        counts,
        work,
        stored.len() / PAGE_WORDS,
        log.len() / RECORD_WORDS,
    )
}

// Refusal 2, without its number: whether the reopening is finished.
pub fn is_open(work: &[u32]) -> bool
    requires { reopening_at < length work.now }
    ensures { result ≡ eqb (at work.now reopening_at) finished }
{
    work[layout::REOPENING_AT] == layout::FINISHED
}
