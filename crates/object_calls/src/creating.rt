ghost use Rattle.std.specs.Prelude.{◌≡◌, true};
ghost use Rattle.areas.specs.Areas.{areas, out};
ghost use Rattle.areas.specs.Entry.{well_formed};
ghost use Rattle.calls.specs.Objects.{call_create};

use areas::{Answer, Check, Refusal};
use pages::PAGE_WORDS;

// Creates a named object in a free slot, under the write lock. A store that is known to be well formed.
pub fn held_create(
    stored: &[u32],
    copies: &[u32],
    received: &mut [u32],
    log: &mut [u32],
    counts: &mut [u32],
    work: &mut [u32],
    t: u32,
    o: u32,
) -> Answer
    requires { well_formed true (areas stored.now copies.now received.old log.old counts.old work.old) ≡ true }
    ensures { out result stored.now copies.now received.new log.new counts.new work.new ≡ call_create (areas stored.now copies.now received.old log.old counts.old work.old) t o }
{
    if !entry::is_open(work) {
        return Err(Refusal::NotOpen);
    }
    let n = stored.len() / PAGE_WORDS;
    object_checks::create_check(received, log, counts, work, n, t, o)?;
    Ok(object_changes::create_apply(received, log, counts, work, n, t, o))
}

// Creates a named object in a free slot, under the write lock.
#[tactic(auto, using(areas::specs::Entry::called_malformed), unfolding(calls::specs::Objects::call_create))]
pub fn create(
    stored: &[u32],
    copies: &[u32],
    received: &mut [u32],
    log: &mut [u32],
    counts: &mut [u32],
    work: &mut [u32],
    t: u32,
    o: u32,
) -> Answer
    ensures { out result stored.now copies.now received.new log.new counts.new work.new ≡ call_create (areas stored.now copies.now received.old log.old counts.old work.old) t o }
{
    if !entry::well_formed(stored, copies, received, log, counts, work, true) {
        return Err(Refusal::Malformed);
    }
    held_create(stored, copies, received, log, counts, work, t, o)
}
