// The calls that only look at the store: refusal 1, then the call on a store that is known to be well formed. Here the chain of references.
#![tactic(auto)]

pub mod shares;

ghost use Rattle.std.specs.Prelude.{◌≡◌, true, length, eqb};
ghost use Rattle.areas.specs.Areas.{areas, out};
ghost use Rattle.areas.specs.Entry.{well_formed};
ghost use Rattle.calls.specs.Chains.{chain_words, call_chain, chain_after};

use areas::{Answer, Check, Refusal};
use pages::{MAX_OBJECTS, PAGE_WORDS};

// Shows the chain of references that keeps object o in the copies. A store that is known to be well formed.
pub fn held_chain(
    stored: &[u32],
    copies: &[u32],
    received: &[u32],
    log: &[u32],
    counts: &[u32],
    work: &[u32],
    buffer: &mut [u32],
    o: u32,
) -> Answer
    requires { well_formed (eqb (length buffer.old) chain_words) (areas stored.now copies.now received.now log.now counts.now work.now) ≡ true }
    ensures work_value { out result stored.now copies.now received.now log.now counts.now work.now ≡ call_chain (areas stored.now copies.now received.now log.now counts.now work.now) buffer.old o }
    ensures buffer_after { buffer.new ≡ chain_after (areas stored.now copies.now received.now log.now counts.now work.now) buffer.old o }
{
    if !entry::is_open(work) {
        return Err(Refusal::NotOpen);
    }
    let n = stored.len() / PAGE_WORDS;
    chain_trace::chain_check(copies, n, o)?;
    Ok(chain_trace::chain_apply(copies, buffer, n, o))
}

// Shows the chain of references that keeps object o in the copies.
pub fn chain(
    stored: &[u32],
    copies: &[u32],
    received: &[u32],
    log: &[u32],
    counts: &[u32],
    work: &[u32],
    buffer: &mut [u32],
    o: u32,
) -> Answer
    ensures work_value { out result stored.now copies.now received.now log.now counts.now work.now ≡ call_chain (areas stored.now copies.now received.now log.now counts.now work.now) buffer.old o }
    ensures buffer_after { buffer.new ≡ chain_after (areas stored.now copies.now received.now log.now counts.now work.now) buffer.old o }
{
    if !entry::well_formed(
        stored,
        copies,
        received,
        log,
        counts,
        work,
        buffer.len() == MAX_OBJECTS,
    ) {
        return Err(Refusal::Malformed);
    }
    held_chain(stored, copies, received, log, counts, work, buffer, o)
}
