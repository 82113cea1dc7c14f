// Force, store page and empty log: refusal 1, then the call on a store that is known to be well formed.
#![tactic(auto)]

ghost use Rattle.std.specs.Prelude.{◌≡◌, true};
ghost use Rattle.areas.specs.Areas.{areas, out};
ghost use Rattle.areas.specs.Entry.{well_formed};
ghost use Rattle.calls.specs.Stability.{call_force, call_store, call_empty};

use areas::{Answer, Check, Refusal};
use pages::PAGE_WORDS;
use records::RECORD_WORDS;

// Makes one more record stable. A store that is known to be well formed.
pub fn held_force(
    stored: &[u32],
    copies: &[u32],
    received: &[u32],
    log: &[u32],
    counts: &mut [u32],
    work: &[u32],
) -> Answer
    requires { well_formed true (areas stored.now copies.now received.now log.now counts.old work.now) ≡ true }
    ensures { out result stored.now copies.now received.now log.now counts.new work.now ≡ call_force (areas stored.now copies.now received.now log.now counts.old work.now) }
{
    if !entry::is_open(work) {
        return Err(Refusal::NotOpen);
    }
    stability::force_check(counts)?;
    Ok(stability::raise_stable(counts))
}

// Makes one more record stable.
#[tactic(auto, using(areas::specs::Entry::called_malformed), unfolding(calls::specs::Stability::call_force))]
pub fn force(
    stored: &[u32],
    copies: &[u32],
    received: &[u32],
    log: &[u32],
    counts: &mut [u32],
    work: &[u32],
) -> Answer
    ensures { out result stored.now copies.now received.now log.now counts.new work.now ≡ call_force (areas stored.now copies.now received.now log.now counts.old work.now) }
{
    if !entry::well_formed(stored, copies, received, log, counts, work, true) {
        return Err(Refusal::Malformed);
    }
    held_force(stored, copies, received, log, counts, work)
}

// Writes the copy of page p to the stored pages. A store that is known to be well formed.
pub fn held_store_page(
    stored: &mut [u32],
    copies: &[u32],
    received: &[u32],
    log: &[u32],
    counts: &[u32],
    work: &[u32],
    p: u32,
) -> Answer
    requires { well_formed true (areas stored.old copies.now received.now log.now counts.now work.now) ≡ true }
    ensures { out result stored.new copies.now received.now log.now counts.now work.now ≡ call_store (areas stored.old copies.now received.now log.now counts.now work.now) p }
{
    if !entry::is_open(work) {
        return Err(Refusal::NotOpen);
    }
    let n = stored.len() / PAGE_WORDS;
    stability::store_check(log, counts, n, p)?;
    page_ops::copy::copy_page(copies, stored, p as usize);
    Ok(0)
}

// Writes the copy of page p to the stored pages.
#[tactic(auto, using(areas::specs::Entry::called_malformed), unfolding(calls::specs::Stability::call_store))]
pub fn store_page(
    stored: &mut [u32],
    copies: &[u32],
    received: &[u32],
    log: &[u32],
    counts: &[u32],
    work: &[u32],
    p: u32,
) -> Answer
    ensures { out result stored.new copies.now received.now log.now counts.now work.now ≡ call_store (areas stored.old copies.now received.now log.now counts.now work.now) p }
{
    if !entry::well_formed(stored, copies, received, log, counts, work, true) {
        return Err(Refusal::Malformed);
    }
    held_store_page(stored, copies, received, log, counts, work, p)
}

// Sets both counts to 0. A store that is known to be well formed.
pub fn held_empty_log(
    stored: &[u32],
    copies: &[u32],
    received: &[u32],
    log: &[u32],
    counts: &mut [u32],
    work: &mut [u32],
) -> Answer
    requires { well_formed true (areas stored.now copies.now received.now log.now counts.old work.old) ≡ true }
    ensures { out result stored.now copies.now received.now log.now counts.new work.new ≡ call_empty (areas stored.now copies.now received.now log.now counts.old work.old) }
{
    if !entry::is_open(work) {
        return Err(Refusal::NotOpen);
    }
    stability::empty_check(stored, copies, counts, work)?;
    let n = stored.len() / PAGE_WORDS;
    stability::empty(counts, work, n, log.len() / RECORD_WORDS);
    Ok(0)
}

// Sets both counts to 0.
#[tactic(auto, using(areas::specs::Entry::called_malformed), unfolding(calls::specs::Stability::call_empty))]
pub fn empty_log(
    stored: &[u32],
    copies: &[u32],
    received: &[u32],
    log: &[u32],
    counts: &mut [u32],
    work: &mut [u32],
) -> Answer
    ensures { out result stored.now copies.now received.now log.now counts.new work.new ≡ call_empty (areas stored.now copies.now received.now log.now counts.old work.old) }
{
    if !entry::well_formed(stored, copies, received, log, counts, work, true) {
        return Err(Refusal::Malformed);
    }
    held_empty_log(stored, copies, received, log, counts, work)
}
