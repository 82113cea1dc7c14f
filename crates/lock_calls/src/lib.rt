// Locks for reading and for writing a page: refusal 1, then the call on a store that is known to be well formed.
#![tactic(auto)]

ghost use Rattle.std.specs.Prelude.{◌≡◌, true};
ghost use Rattle.areas.specs.Areas.{areas, out};
ghost use Rattle.areas.specs.Entry.{well_formed};
ghost use Rattle.calls.specs.Locks.{call_lock_read, call_lock_write};

use areas::{Answer, Check, Refusal};
use pages::PAGE_WORDS;

// The calls of the two locks stay apart: each has its name in C and its definition, call_lock_read and call_lock_write, and what they
// share is one function already, lock_check.

// Locks page p for reading, for transaction t. A store that is known to be well formed.
pub fn held_lock_read(
    stored: &[u32],
    copies: &[u32],
    received: &[u32],
    log: &[u32],
    counts: &[u32],
    work: &mut [u32],
    t: u32,
    p: u32,
) -> Answer
    requires { well_formed true (areas stored.now copies.now received.now log.now counts.now work.old) ≡ true }
    ensures { out result stored.now copies.now received.now log.now counts.now work.new ≡ call_lock_read (areas stored.now copies.now received.now log.now counts.now work.old) t p }
{
    if !entry::is_open(work) {
        return Err(Refusal::NotOpen);
    }
    let n = stored.len() / PAGE_WORDS;
    locks::lock_check(work, n, t, p, false)?;
    locks::let_read(work, n, t, p as usize);
    Ok(0)
}

// Locks page p for reading, for transaction t.
#[tactic(auto, using(areas::specs::Entry::called_malformed), unfolding(calls::specs::Locks::call_lock_read))]
pub fn lock_read(
    stored: &[u32],
    copies: &[u32],
    received: &[u32],
    log: &[u32],
    counts: &[u32],
    work: &mut [u32],
    t: u32,
    p: u32,
) -> Answer
    ensures { out result stored.now copies.now received.now log.now counts.now work.new ≡ call_lock_read (areas stored.now copies.now received.now log.now counts.now work.old) t p }
{
    if !entry::well_formed(stored, copies, received, log, counts, work, true) {
        return Err(Refusal::Malformed);
    }
    held_lock_read(stored, copies, received, log, counts, work, t, p)
}

// Locks page p for writing, for transaction t. A store that is known to be well formed.
pub fn held_lock_write(
    stored: &[u32],
    copies: &[u32],
    received: &[u32],
    log: &[u32],
    counts: &[u32],
    work: &mut [u32],
    t: u32,
    p: u32,
) -> Answer
    requires { well_formed true (areas stored.now copies.now received.now log.now counts.now work.old) ≡ true }
    ensures { out result stored.now copies.now received.now log.now counts.now work.new ≡ call_lock_write (areas stored.now copies.now received.now log.now counts.now work.old) t p }
{
    if !entry::is_open(work) {
        return Err(Refusal::NotOpen);
    }
    let n = stored.len() / PAGE_WORDS;
    locks::lock_check(work, n, t, p, true)?;
    locks::let_write(work, n, t, p as usize);
    Ok(0)
}

// Locks page p for writing, for transaction t.
#[tactic(auto, using(areas::specs::Entry::called_malformed), unfolding(calls::specs::Locks::call_lock_write))]
pub fn lock_write(
    stored: &[u32],
    copies: &[u32],
    received: &[u32],
    log: &[u32],
    counts: &[u32],
    work: &mut [u32],
    t: u32,
    p: u32,
) -> Answer
    ensures { out result stored.now copies.now received.now log.now counts.now work.new ≡ call_lock_write (areas stored.now copies.now received.now log.now counts.now work.old) t p }
{
    if !entry::well_formed(stored, copies, received, log, counts, work, true) {
        return Err(Refusal::Malformed);
    }
    held_lock_write(stored, copies, received, log, counts, work, t, p)
}
