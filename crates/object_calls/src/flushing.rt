ghost use Rattle.std.specs.Prelude.{◌≡◌, true, length, eqb};
ghost use Rattle.pages.specs.Geometry.{page_words};
ghost use Rattle.areas.specs.Areas.{areas, out};
ghost use Rattle.areas.specs.Entry.{well_formed};
ghost use Rattle.calls.specs.Objects.{call_flush};

use areas::{Answer, Check, Refusal};
use pages::PAGE_WORDS;

// Flushes a page under the write lock: the image must agree with the received page, which the page copy becomes. A store that is known to be well formed.
pub fn held_flush(
    stored: &[u32],
    copies: &mut [u32],
    received: &[u32],
    log: &[u32],
    counts: &[u32],
    work: &mut [u32],
    t: u32,
    p: u32,
    image: &[u32],
) -> Answer
    requires { well_formed (eqb (length image.now) page_words) (areas stored.now copies.old received.now log.now counts.now work.old) ≡ true }
    ensures { out result stored.now copies.new received.now log.now counts.now work.new ≡ call_flush (areas stored.now copies.old received.now log.now counts.now work.old) t p image.now }
{
    if !entry::is_open(work) {
        return Err(Refusal::NotOpen);
    }
    let n = stored.len() / PAGE_WORDS;
    object_checks::flush_check(received, work, image, n, t, p)?;
    objects::flush_apply(received, copies, work, n, t, p);
    Ok(0)
}

// Flushes a page under the write lock: the image must agree with the received page, which the page copy becomes.
#[tactic(auto, using(areas::specs::Entry::called_malformed), unfolding(calls::specs::Objects::call_flush))]
pub fn flush(
    stored: &[u32],
    copies: &mut [u32],
    received: &[u32],
    log: &[u32],
    counts: &[u32],
    work: &mut [u32],
    t: u32,
    p: u32,
    image: &[u32],
) -> Answer
    ensures { out result stored.now copies.new received.now log.now counts.now work.new ≡ call_flush (areas stored.now copies.old received.now log.now counts.now work.old) t p image.now }
{
    if !entry::well_formed(
        stored,
        copies,
        received,
        log,
        counts,
        work,
        image.len() == PAGE_WORDS,
    ) {
        return Err(Refusal::Malformed);
    }
    held_flush(stored, copies, received, log, counts, work, t, p, image)
}
