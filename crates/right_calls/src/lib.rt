// A change of a client's right: refusal 1, then the call on a store that is known to be well formed.
#![tactic(auto)]

ghost use Rattle.std.specs.Prelude.{◌≡◌, true};
ghost use Rattle.areas.specs.Areas.{areas, out};
ghost use Rattle.areas.specs.Entry.{well_formed};
ghost use Rattle.calls.specs.Rights.{call_grant};

use areas::{Answer, Check, Refusal};
use pages::PAGE_WORDS;

// Gives client c the right r on page p. A store that is known to be well formed.
pub fn held_grant(
    stored: &[u32],
    copies: &[u32],
    received: &[u32],
    log: &[u32],
    counts: &[u32],
    work: &mut [u32],
    c: u32,
    p: u32,
    r: u32,
) -> Answer
    requires { well_formed true (areas stored.now copies.now received.now log.now counts.now work.old) ≡ true }
    ensures { out result stored.now copies.now received.now log.now counts.now work.new ≡ call_grant (areas stored.now copies.now received.now log.now counts.now work.old) c p r }
{
    if !entry::is_open(work) {
        return Err(Refusal::NotOpen);
    }
    let n = stored.len() / PAGE_WORDS;
    rights::grant_check(work, n, c, p, r)?;
    rights::grant_apply(work, n, c, p as usize, r);
    Ok(0)
}

// Gives client c the right r on page p.
#[tactic(auto, using(areas::specs::Entry::called_malformed), unfolding(calls::specs::Rights::call_grant))]
pub fn grant(
    stored: &[u32],
    copies: &[u32],
    received: &[u32],
    log: &[u32],
    counts: &[u32],
    work: &mut [u32],
    c: u32,
    p: u32,
    r: u32,
) -> Answer
    ensures { out result stored.now copies.now received.now log.now counts.now work.new ≡ call_grant (areas stored.now copies.now received.now log.now counts.now work.old) c p r }
{
    if !entry::well_formed(stored, copies, received, log, counts, work, true) {
        return Err(Refusal::Malformed);
    }
    held_grant(stored, copies, received, log, counts, work, c, p, r)
}
