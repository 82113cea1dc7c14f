// Begin, commit and abort: refusal 1, then the call on a store that is known to be well formed.
#![tactic(auto)]

ghost use Rattle.std.specs.Prelude.{◌≡◌, true};
ghost use Rattle.areas.specs.Areas.{areas, out};
ghost use Rattle.areas.specs.Entry.{well_formed};
ghost use Rattle.calls.specs.Transactions.{call_begin, call_commit, call_abort};

use areas::{Answer, Check, Refusal};
use pages::PAGE_WORDS;

// Begins transaction t as the client. A store that is known to be well formed.
pub fn held_begin(
    stored: &[u32],
    copies: &[u32],
    received: &mut [u32],
    log: &mut [u32],
    counts: &mut [u32],
    work: &mut [u32],
    t: u32,
    client: u32,
) -> Answer
    requires { well_formed true (areas stored.now copies.now received.old log.old counts.old work.old) ≡ true }
    ensures { out result stored.now copies.now received.new log.new counts.new work.new ≡ call_begin (areas stored.now copies.now received.old log.old counts.old work.old) t client }
{
    if !entry::is_open(work) {
        return Err(Refusal::NotOpen);
    }
    let n = stored.len() / PAGE_WORDS;
    transactions::begin_check(log, counts, work, n, t, client)?;
    Ok(transactions::begin_apply(received, log, counts, work, n, t, client))
}

// Begins transaction t as the client.
#[tactic(auto, using(areas::specs::Entry::called_malformed), unfolding(calls::specs::Transactions::call_begin))]
pub fn begin(
    stored: &[u32],
    copies: &[u32],
    received: &mut [u32],
    log: &mut [u32],
    counts: &mut [u32],
    work: &mut [u32],
    t: u32,
    client: u32,
) -> Answer
    ensures { out result stored.now copies.now received.new log.new counts.new work.new ≡ call_begin (areas stored.now copies.now received.old log.old counts.old work.old) t client }
{
    if !entry::well_formed(stored, copies, received, log, counts, work, true) {
        return Err(Refusal::Malformed);
    }
    held_begin(stored, copies, received, log, counts, work, t, client)
}

// Commits transaction t. A store that is known to be well formed.
pub fn held_commit(
    stored: &[u32],
    copies: &[u32],
    received: &mut [u32],
    log: &mut [u32],
    counts: &mut [u32],
    work: &mut [u32],
    t: u32,
) -> Answer
    requires { well_formed true (areas stored.now copies.now received.old log.old counts.old work.old) ≡ true }
    ensures { out result stored.now copies.now received.new log.new counts.new work.new ≡ call_commit (areas stored.now copies.now received.old log.old counts.old work.old) t }
{
    if !entry::is_open(work) {
        return Err(Refusal::NotOpen);
    }
    let n = stored.len() / PAGE_WORDS;
    transactions::commit_check(log, counts, work, n, t)?;
    Ok(transactions::commit_apply(received, log, counts, work, n, t))
}

// Commits transaction t.
#[tactic(auto, using(areas::specs::Entry::called_malformed), unfolding(calls::specs::Transactions::call_commit))]
pub fn commit(
    stored: &[u32],
    copies: &[u32],
    received: &mut [u32],
    log: &mut [u32],
    counts: &mut [u32],
    work: &mut [u32],
    t: u32,
) -> Answer
    ensures { out result stored.now copies.now received.new log.new counts.new work.new ≡ call_commit (areas stored.now copies.now received.old log.old counts.old work.old) t }
{
    if !entry::well_formed(stored, copies, received, log, counts, work, true) {
        return Err(Refusal::Malformed);
    }
    held_commit(stored, copies, received, log, counts, work, t)
}

// Aborts transaction t. A store that is known to be well formed.
pub fn held_abort(
    stored: &[u32],
    copies: &mut [u32],
    received: &mut [u32],
    log: &mut [u32],
    counts: &mut [u32],
    work: &mut [u32],
    t: u32,
) -> Answer
    requires { well_formed true (areas stored.now copies.old received.old log.old counts.old work.old) ≡ true }
    ensures { out result stored.now copies.new received.new log.new counts.new work.new ≡ call_abort (areas stored.now copies.old received.old log.old counts.old work.old) t }
{
    if !entry::is_open(work) {
        return Err(Refusal::NotOpen);
    }
    let n = stored.len() / PAGE_WORDS;
    aborts::abort_check(log, counts, work, n, t)?;
    Ok(aborts::abort_apply(copies, received, log, counts, work, n, t))
}

// Aborts transaction t.
#[tactic(auto, using(areas::specs::Entry::called_malformed), unfolding(calls::specs::Transactions::call_abort))]
pub fn abort(
    stored: &[u32],
    copies: &mut [u32],
    received: &mut [u32],
    log: &mut [u32],
    counts: &mut [u32],
    work: &mut [u32],
    t: u32,
) -> Answer
    ensures { out result stored.now copies.new received.new log.new counts.new work.new ≡ call_abort (areas stored.now copies.old received.old log.old counts.old work.old) t }
{
    if !entry::well_formed(stored, copies, received, log, counts, work, true) {
        return Err(Refusal::Malformed);
    }
    held_abort(stored, copies, received, log, counts, work, t)
}
