// Reopen and its steps. Reopen looks at lengths only; a step: refusal 1, then the call on a store that is known to be well formed.
#![tactic(auto)]

ghost use Rattle.std.specs.Prelude.{◌≡◌, true};
ghost use Rattle.areas.specs.Areas.{areas, out};
ghost use Rattle.areas.specs.Entry.{well_formed};
ghost use Rattle.calls.specs.Reopening.{call_reopen, call_restep};

use areas::{Answer, Check, Refusal, layout};
use pages::PAGE_WORDS;
use records::RECORD_WORDS;

// Reopens: received pages and copies become what the stored pages and the stable records give. Looks at the lengths, the stored pages,
// the stable count and its records only, and may be called at any time.
pub fn reopen(
    stored: &[u32],
    copies: &mut [u32],
    received: &mut [u32],
    log: &[u32],
    counts: &mut [u32],
    work: &mut [u32],
) -> Answer
    ensures { out result stored.now copies.new received.new log.now counts.new work.new ≡ call_reopen (areas stored.now copies.old received.old log.now counts.old work.old) }
{
    if !entry::lengths_fit(
        stored.len(),
        copies.len(),
        received.len(),
        log.len(),
        counts.len(),
        work.len(),
    ) {
        return Err(Refusal::Malformed);
    }
    let n = stored.len() / PAGE_WORDS;
    let stable = counts[layout::STABLE] as usize;
    let still_open = log_replay::find_open(stored, log, n, log.len() / RECORD_WORDS, stable)?;
    if !reopening::recover_both(stored, copies, received, log, n, stable, still_open) {
        return Err(Refusal::Unsound);
    }
    log_replay::restart(counts, work);
    Ok(0)
}

// One reopening step: stores the next page, or, after the last, empties the log and ends the reopening. A store that is known to be
// well formed.
pub fn held_restep(
    stored: &mut [u32],
    copies: &[u32],
    received: &[u32],
    log: &[u32],
    counts: &mut [u32],
    work: &mut [u32],
) -> Answer
    requires { well_formed true (areas stored.old copies.now received.now log.now counts.old work.old) ≡ true }
    ensures { out result stored.new copies.now received.now log.now counts.new work.new ≡ call_restep (areas stored.old copies.now received.now log.now counts.old work.old) }
{
    reopening::restep_check(work)?;
    let p = work[layout::REOPENING_PAGE_AT];
    let n = stored.len() / PAGE_WORDS;
    if (p as usize) < n {
        reopening::store_next(stored, copies, work, p);
        return Ok(p);
    }
    reopening::finish(counts, work, n, log.len() / RECORD_WORDS);
    Ok(p)
}

// One reopening step: stores the next page, or, after the last, empties the log and ends the reopening.
#[tactic(auto, using(areas::specs::Entry::called_malformed), unfolding(calls::specs::Reopening::call_restep))]
pub fn restep(
    stored: &mut [u32],
    copies: &[u32],
    received: &[u32],
    log: &[u32],
    counts: &mut [u32],
    work: &mut [u32],
) -> Answer
    ensures { out result stored.new copies.now received.now log.now counts.new work.new ≡ call_restep (areas stored.old copies.now received.now log.now counts.old work.old) }
{
    if !entry::well_formed(stored, copies, received, log, counts, work, true) {
        return Err(Refusal::Malformed);
    }
    held_restep(stored, copies, received, log, counts, work)
}
