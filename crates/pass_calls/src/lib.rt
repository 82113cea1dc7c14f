// A pass's start and its steps: refusal 1, then the call on a store that is known to be well formed.
#![tactic(auto)]

ghost use Rattle.std.specs.Prelude.{◌≡◌, true};
ghost use Rattle.areas.specs.Areas.{areas, out};
ghost use Rattle.areas.specs.Entry.{well_formed};
ghost use Rattle.calls.specs.Pass.{call_pass, call_step};

use areas::{Answer, Check, Refusal};
use pages::PAGE_WORDS;

// Starts a pass. A store that is known to be well formed.
pub fn held_start_pass(
    stored: &[u32],
    copies: &[u32],
    received: &[u32],
    log: &[u32],
    counts: &[u32],
    work: &mut [u32],
) -> Answer
    requires { well_formed true (areas stored.now copies.now received.now log.now counts.now work.old) ≡ true }
    ensures { out result stored.now copies.now received.now log.now counts.now work.new ≡ call_pass (areas stored.now copies.now received.now log.now counts.now work.old) }
{
    if !entry::is_open(work) {
        return Err(Refusal::NotOpen);
    }
    let n = stored.len() / PAGE_WORDS;
    passes::start_check(work)?;
    pass_start::begin_pass(work, n);
    Ok(0)
}

// Starts a pass.
#[tactic(auto, using(areas::specs::Entry::called_malformed), unfolding(calls::specs::Pass::call_pass))]
pub fn start_pass(
    stored: &[u32],
    copies: &[u32],
    received: &[u32],
    log: &[u32],
    counts: &[u32],
    work: &mut [u32],
) -> Answer
    ensures { out result stored.now copies.now received.now log.now counts.now work.new ≡ call_pass (areas stored.now copies.now received.now log.now counts.now work.old) }
{
    if !entry::well_formed(stored, copies, received, log, counts, work, true) {
        return Err(Refusal::Malformed);
    }
    held_start_pass(stored, copies, received, log, counts, work)
}

// One step of the pass that runs: an object scanned, or a page swept. A store that is known to be well formed.
pub fn held_pass_step(
    stored: &[u32],
    copies: &mut [u32],
    received: &mut [u32],
    log: &mut [u32],
    counts: &mut [u32],
    work: &mut [u32],
) -> Answer
    requires { well_formed true (areas stored.now copies.old received.old log.old counts.old work.old) ≡ true }
    ensures { out result stored.now copies.new received.new log.new counts.new work.new ≡ call_step (areas stored.now copies.old received.old log.old counts.old work.old) }
{
    if !entry::is_open(work) {
        return Err(Refusal::NotOpen);
    }
    let n = stored.len() / PAGE_WORDS;
    passes::step_check(work)?;
    passes::step_apply(copies, received, log, counts, work, n)
}

// One step of the pass that runs: an object scanned, or a page swept. Answers the object or the number of slots freed.
#[tactic(auto, using(areas::specs::Entry::called_malformed), unfolding(calls::specs::Pass::call_step))]
pub fn pass_step(
    stored: &[u32],
    copies: &mut [u32],
    received: &mut [u32],
    log: &mut [u32],
    counts: &mut [u32],
    work: &mut [u32],
) -> Answer
    ensures { out result stored.now copies.new received.new log.new counts.new work.new ≡ call_step (areas stored.now copies.old received.old log.old counts.old work.old) }
{
    if !entry::well_formed(stored, copies, received, log, counts, work, true) {
        return Err(Refusal::Malformed);
    }
    held_pass_step(stored, copies, received, log, counts, work)
}
