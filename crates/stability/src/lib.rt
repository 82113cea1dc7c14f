// What becomes stable: records one by one, pages one by one, and the log emptied once all is. What each call tests and changes.
#![tactic(auto)]

ghost use Rattle.std.specs.Prelude.{◌≡◌, true, [], ◌+◌, ◌*◌, ◌<◌, ◌≤◌, length, get_or, set};
ghost use Rattle.pages.specs.Geometry.{max_pages};
ghost use Rattle.records.specs.Records.{record_words, max_records};
ghost use Rattle.records.specs.Soundness.{records_sound};
ghost use Rattle.areas.specs.Answers.{verdict};
ghost use Rattle.areas.specs.Areas.{areas, count_words};
ghost use Rattle.areas.specs.Layout.{HasUndoing, active_at};
ghost use Rattle.calls.specs.Stability.{force_tests, store_tests, empty_tests};
ghost use Rattle.stability.specs.Checks.{unnoted};

use areas::{Check, Refusal, layout};

// Refusal 4 of a force: all records are stable.
pub fn force_check(counts: &[u32]) -> Check
    requires { count_words ≤ length counts.now }
    ensures { result ≡ verdict (force_tests (areas [] [] [] [] counts.now [])) }
{
    if counts[layout::STABLE] < counts[layout::RECEIVED] {
        return Ok(());
    }
    Err(Refusal::WrongState)
}

// One more record becomes stable. Answers how many are.
pub fn raise_stable(counts: &mut [u32]) -> u32
    requires { (count_words ≤ length counts.old) × (get_or counts.old 1 0 < get_or counts.old 0 0) }
    ensures { (result ≡ get_or counts.old 1 0 + 1) × (counts.new ≡ set counts.old 1 (get_or counts.old 1 0 + 1)) }
{
    let stable = counts[layout::STABLE] + 1;
    counts[layout::STABLE] = stable;
    stable
}

// Refusals 3 and 12 of a store of page p of n: the last record that names the page must be stable, as it is where all are. Else those
// that are not stable are looked at.
pub fn store_check(log: &[u32], counts: &[u32], n: usize, p: u32) -> Check
    requires { (n ≤ max_pages) × (count_words ≤ length counts.now) × (get_or counts.now 0 0 ≤ max_records) × (record_words * get_or counts.now 0 0 ≤ length log.now) × (records_sound n log.now (get_or counts.now 0 0) ≡ true) }
    ensures { result ≡ verdict (store_tests (areas [] [] [] log.now counts.now []) n p) }
{
    let q = p as usize;
    if n <= q {
        return Err(Refusal::OutOfRange);
    }
    if counts[layout::RECEIVED] <= counts[layout::STABLE] {
        return Ok(());
    }
    let last = record_ops::last_naming(
        log,
        counts[layout::STABLE] as usize,
        counts[layout::RECEIVED] as usize,
    );
    if counts[layout::STABLE] < last[q] {
        return Err(Refusal::Unstable);
    }
    Ok(())
}

// Refusal 13 of emptying: a transaction is active, a record is not stable, or a copy is unlike its stored page.
pub fn empty_check(stored: &[u32], copies: &[u32], counts: &[u32], work: &[u32]) -> Check
    requires { (length copies.now ≡ length stored.now) × (count_words ≤ length counts.now) × (active_at < length work.now) }
    ensures { result ≡ verdict (empty_tests (areas stored.now copies.now [] [] counts.now work.now)) }
{
    if !((work[layout::ACTIVE_AT] == 0) & (counts[layout::STABLE] == counts[layout::RECEIVED])) {
        return Err(Refusal::InUse);
    }
    if !page_ops::copy::areas_agree(copies, stored) {
        return Err(Refusal::InUse);
    }
    Ok(())
}

// Both counts become 0, and no undoing word of the l records stays.
pub fn empty(counts: &mut [u32], work: &mut [u32], n: usize, l: usize)
    requires { (count_words ≤ length counts.old) × HasUndoing work.old n l }
    ensures { (counts.new ≡ set (set counts.old 0 0) 1 0) × (work.new ≡ unnoted work.old n l) }
{
    counts[layout::RECEIVED] = 0;
    counts[layout::STABLE] = 0;
    page_ops::areas::clear_words(work, layout::undoing_at(n, 0), l);
}
