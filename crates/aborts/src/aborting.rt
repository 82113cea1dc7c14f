ghost use Rattle.std.specs.Prelude.{◌≡◌, List, [], ℕ, ◌*◌, ◌<◌, ◌≤◌, length, get_or, Ok};
ghost use Rattle.pages.specs.Geometry.{page_words};
ghost use Rattle.areas.specs.Answers.{verdict};
ghost use Rattle.areas.specs.Areas.{areas, out};
ghost use Rattle.areas.specs.Layout.{HasUndoing};
ghost use Rattle.calls.specs.Transactions.{abort_tests, aborted};
ghost use Rattle.log_ops.specs.Logs.{Kept, counted};
ghost use Rattle.aborts.specs.Rolling.{Undoable};

use super::restoring::restore;
use super::undoing::abort_log;
use areas::{Check, Refusal, layout};
use records::TXNS;

// Refusals 3, 4 and 11 of an abort.
pub fn abort_check(log: &[u32], counts: &[u32], work: &[u32], n: usize, t: u32) -> Check
    requires kept { Kept log.now counts.now }
    requires has_undoing { HasUndoing work.now n (get_or counts.now 0 0) }
    ensures { result ≡ verdict (abort_tests (areas [] [] [] log.now counts.now work.now) n t) }
{
    if TXNS <= t {
        return Err(Refusal::OutOfRange);
    }
    if !store_ops::has(work, layout::ACTIVE_AT, t) {
        return Err(Refusal::WrongState);
    }
    let left = log_ops::changes_left(log, counts, work, n, t);
    if transactions::room_within(log, counts, left as usize + 1) {
        Ok(())
    } else {
        Err(Refusal::LogFull)
    }
}

// The log, the copies of the pages that t wrote, and the tables; answers the received count.
pub fn abort_apply(
    copies: &mut [u32],
    received: &mut [u32],
    log: &mut [u32],
    counts: &mut [u32],
    work: &mut [u32],
    n: usize,
    t: u32,
) -> u32
    requires undoable { Undoable received.old log.old counts.old work.old n t }
    requires n_nonzero { (0 < n) × (page_words * n ≤ length received.old) × (page_words * n ≤ length copies.old) }
    ensures { (s : List ℕ) → out (Ok result) s copies.new received.new log.new counts.new work.new ≡ counted (aborted (areas s copies.old received.old log.old counts.old work.old) n t) }
{
    let c = abort_log(received, log, counts, work, n, t);
    restore(work, received, copies, n, t);
    transactions::end_tables(work, n, t);
    c
}
