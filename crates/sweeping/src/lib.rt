// One sweeping step: the slots that it frees, room for its record, and the pages, the log and the pass record after it.
#![tactic(auto)]

ghost use Rattle.std.specs.Prelude.{◌≡◌, List, [], ℕ, ◌+◌, ◌*◌, ◌<◌, ◌≤◌, length, get_or};
ghost use Rattle.words.specs.Bits.{slots_set};
ghost use Rattle.pages.specs.Geometry.{page_words, max_pages, map_top, page_at};
ghost use Rattle.pages.specs.Objects.{map_at};
ghost use Rattle.records.specs.Records.{record_words, max_records};
ghost use Rattle.areas.specs.Answers.{verdict};
ghost use Rattle.areas.specs.Areas.{areas, out, count_words};
ghost use Rattle.areas.specs.Layout.{HasTables, HasUndoing};
ghost use Rattle.calls.specs.Pass as spec;
ghost use Rattle.log_ops.specs.Logs.{Kept};
ghost use Rattle.pass_record.specs.Step.{pass_of};
ghost use Rattle.sweeping.specs.Sweeps.{swept_areas};

use areas::{Answer, Check, Refusal};
use bit_ops::bits;
use page_ops::change;
use pass_record::Pass;

// Refusal 11: no room for the record of a step that frees the slots of m.
fn sweep_check(log: &[u32], counts: &[u32], work: &[u32], n: usize, m: u32) -> Check
    requires kept { Kept log.now counts.now }
    requires has_undoing { HasUndoing work.now n (get_or counts.now 0 0) }
    ensures { result ≡ verdict (spec.sweep_tests (areas [] [] [] log.now counts.now work.now) n m) }
{
    if m == 0 {
        return Ok(());
    }
    if !log_ops::room_beyond(log, counts, work, n, log_ops::SWEEP_ROOM) {
        return Err(Refusal::LogFull);
    }
    Ok(())
}

// A sweeping step of the pass record's page that frees the slots of m, with one sweep record if there are any. Answers how many.
fn sweep_apply(
    copies: &mut [u32],
    received: &mut [u32],
    log: &mut [u32],
    counts: &mut [u32],
    work: &mut [u32],
    n: usize,
    pass: Pass,
    m: u32,
) -> u32
    requires has_tables { HasTables work.old n × (m ≤ map_top) × (pass.page < max_pages) × (pass.phase ≡ 1 → ⊥) × (pass ≡ pass_of work.old) × (page_at pass.page + page_words ≤ length copies.old) × (page_at pass.page + page_words ≤ length received.old) × (length counts.old ≡ count_words) }
    requires counts_bound { (m ≡ 0 → ⊥) → (get_or counts.old 0 0 < max_records) × (record_words * get_or counts.old 0 0 + record_words ≤ length log.old) }
    ensures value { result ≡ slots_set m }
    ensures by_index { (s : List ℕ) → areas s copies.new received.new log.new counts.new work.new ≡ swept_areas (areas s copies.old received.old log.old counts.old work.old) n pass.page m }
{
    let first = store_ops::pass_first(work, n);
    let end = store_ops::pass_end(work, n);
    pass_record::put_pass(work, pass_record::advanced(pass, n, first, end, false));
    if m == 0 {
        return 0;
    }
    change::release_slots(copies, pass.page as usize, m);
    log_ops::append(received, log, counts, records::sweep_of(pass.page, m));
    bits::slots_set(m)
}

// A sweeping step of the pass record's page: the tests in the paper's order, 4.3 and 4.5 (freed_map), then room for the record that 4.4 asks
// for, then the slots are freed. Answers how many.
pub fn sweep_step(
    copies: &mut [u32],
    received: &mut [u32],
    log: &mut [u32],
    counts: &mut [u32],
    work: &mut [u32],
    n: usize,
    pass: Pass,
) -> Answer
    requires has_undoing { HasUndoing work.old n (get_or counts.old 0 0) × (pass.page < n) × (pass.phase ≡ 1 → ⊥) × (pass ≡ pass_of work.old) × (page_at n ≤ length copies.old) × (page_at n ≤ length received.old) × (map_at copies.old pass.page ≤ map_top) }
    requires kept { Kept log.old counts.old × (length log.old ≤ record_words * max_records) }
    ensures { (s : List ℕ) → out result s copies.new received.new log.new counts.new work.new ≡ spec.swept (areas s copies.old received.old log.old counts.old work.old) n }
{
    let m = sweep_maps::freed_map(copies, work, n, pass.page as usize);
    sweep_check(log, counts, work, n, m)?;
    Ok(sweep_apply(copies, received, log, counts, work, n, pass, m))
}
