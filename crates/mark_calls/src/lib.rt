// Marks and going back to them: refusal 1, then the call on a store that is known to be well formed.
#![tactic(auto)]

ghost use Rattle.std.specs.Prelude.{◌≡◌, true};
ghost use Rattle.areas.specs.Areas.{areas, out};
ghost use Rattle.areas.specs.Entry.{well_formed};
ghost use Rattle.calls.specs.Marks.{call_mark, call_back};

use areas::{Answer, Check, Refusal};
use pages::PAGE_WORDS;

// Sets mark m of transaction t, or sets it again. A store that is known to be well formed.
pub fn held_mark(
    stored: &[u32],
    copies: &[u32],
    received: &[u32],
    log: &[u32],
    counts: &[u32],
    work: &mut [u32],
    t: u32,
    m: u32,
) -> Answer
    requires { well_formed true (areas stored.now copies.now received.now log.now counts.now work.old) ≡ true }
    ensures { out result stored.now copies.now received.now log.now counts.now work.new ≡ call_mark (areas stored.now copies.now received.now log.now counts.now work.old) t m }
{
    if !entry::is_open(work) {
        return Err(Refusal::NotOpen);
    }
    let n = stored.len() / PAGE_WORDS;
    marks::mark_check(work, t, m)?;
    marks::mark_apply(log, counts, work, n, t, m);
    Ok(0)
}

// Sets mark m of transaction t, or sets it again.
#[tactic(auto, using(areas::specs::Entry::called_malformed), unfolding(calls::specs::Marks::call_mark))]
pub fn mark(
    stored: &[u32],
    copies: &[u32],
    received: &[u32],
    log: &[u32],
    counts: &[u32],
    work: &mut [u32],
    t: u32,
    m: u32,
) -> Answer
    ensures { out result stored.now copies.now received.now log.now counts.now work.new ≡ call_mark (areas stored.now copies.now received.now log.now counts.now work.old) t m }
{
    if !entry::well_formed(stored, copies, received, log, counts, work, true) {
        return Err(Refusal::Malformed);
    }
    held_mark(stored, copies, received, log, counts, work, t, m)
}

// Takes transaction t back to its mark m. A store that is known to be well formed.
pub fn held_back(
    stored: &[u32],
    copies: &[u32],
    received: &mut [u32],
    log: &mut [u32],
    counts: &mut [u32],
    work: &mut [u32],
    t: u32,
    m: u32,
) -> Answer
    requires { well_formed true (areas stored.now copies.now received.old log.old counts.old work.old) ≡ true }
    ensures { out result stored.now copies.now received.new log.new counts.new work.new ≡ call_back (areas stored.now copies.now received.old log.old counts.old work.old) t m }
{
    if !entry::is_open(work) {
        return Err(Refusal::NotOpen);
    }
    let n = stored.len() / PAGE_WORDS;
    going_back::back_check(log, counts, work, n, t, m)?;
    going_back::back_apply(received, log, counts, work, n, t, m);
    Ok(0)
}

// Takes transaction t back to its mark m.
#[tactic(auto, using(areas::specs::Entry::called_malformed), unfolding(calls::specs::Marks::call_back))]
pub fn back(
    stored: &[u32],
    copies: &[u32],
    received: &mut [u32],
    log: &mut [u32],
    counts: &mut [u32],
    work: &mut [u32],
    t: u32,
    m: u32,
) -> Answer
    ensures { out result stored.now copies.now received.new log.new counts.new work.new ≡ call_back (areas stored.now copies.now received.old log.old counts.old work.old) t m }
{
    if !entry::well_formed(stored, copies, received, log, counts, work, true) {
        return Err(Refusal::Malformed);
    }
    held_back(stored, copies, received, log, counts, work, t, m)
}
