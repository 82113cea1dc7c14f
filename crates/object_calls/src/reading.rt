ghost use Rattle.std.specs.Prelude.{◌≡◌, true, length, eqb};
ghost use Rattle.pages.specs.Geometry.{slot_words};
ghost use Rattle.areas.specs.Areas.{areas, out};
ghost use Rattle.areas.specs.Entry.{well_formed};
ghost use Rattle.calls.specs.Objects.{call_read, buffer_after};

use areas::{Answer, Check, Refusal};
use pages::{PAGE_WORDS, SLOT_WORDS};

// Reads a known object into a buffer of a slot's words, under either lock. A store that is known to be well formed.
pub fn held_read(
    stored: &[u32],
    copies: &[u32],
    received: &[u32],
    log: &[u32],
    counts: &[u32],
    work: &mut [u32],
    buffer: &mut [u32],
    t: u32,
    o: u32,
) -> Answer
    requires { well_formed (eqb (length buffer.old) slot_words) (areas stored.now copies.now received.now log.now counts.now work.old) ≡ true }
    ensures work_after { out result stored.now copies.now received.now log.now counts.now work.new ≡ call_read (areas stored.now copies.now received.now log.now counts.now work.old) t o buffer.old }
    ensures buffer_after { buffer.new ≡ buffer_after (areas stored.now copies.now received.now log.now counts.now work.old) t o buffer.old }
{
    if !entry::is_open(work) {
        return Err(Refusal::NotOpen);
    }
    let n = stored.len() / PAGE_WORDS;
    object_checks::read_check(work, n, t, o)?;
    Ok(objects::read_apply(received, work, buffer, n, t, o))
}

// Reads a known object into a buffer of a slot's words, under either lock.
pub fn read(
    stored: &[u32],
    copies: &[u32],
    received: &[u32],
    log: &[u32],
    counts: &[u32],
    work: &mut [u32],
    buffer: &mut [u32],
    t: u32,
    o: u32,
) -> Answer
    ensures work_after { out result stored.now copies.now received.now log.now counts.now work.new ≡ call_read (areas stored.now copies.now received.now log.now counts.now work.old) t o buffer.old }
    ensures buffer_after { buffer.new ≡ buffer_after (areas stored.now copies.now received.now log.now counts.now work.old) t o buffer.old }
{
    if !entry::well_formed(
        stored,
        copies,
        received,
        log,
        counts,
        work,
        buffer.len() == SLOT_WORDS,
    ) {
        return Err(Refusal::Malformed);
    }
    held_read(stored, copies, received, log, counts, work, buffer, t, o)
}
