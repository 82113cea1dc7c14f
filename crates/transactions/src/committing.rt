ghost use Rattle.std.specs.Prelude.{◌≡◌, List, [], ℕ, ◌<◌, length, Ok};
ghost use Rattle.records.specs.Records.{txn_count, commit_of};
ghost use Rattle.areas.specs.Answers.{verdict};
ghost use Rattle.areas.specs.Areas.{areas, out};
ghost use Rattle.areas.specs.Layout.{HasTables, HasUndoing};
ghost use Rattle.calls.specs.Transactions.{all_flushed, commit_tests, committed};
ghost use Rattle.log_ops.specs.Logs.{Fits, counted};

use super::ending::{end_tables, room_within};
use areas::{Check, Refusal, layout};
use records::TXNS;

// Whether no page has records of t that are not flushed.
fn all_flushed(work: &[u32], n: usize, t: u32) -> bool
    requires { HasTables work.now n × (t < 32) }
    ensures { result ≡ all_flushed work.now n t }
{
    for p in 0..n {
        if store_ops::has(work, layout::unflushed_at(n, p), t) {
            return false;
        }
    }
    true
}

// Refusals 3, 4, 10 and 11 of a commit.
pub fn commit_check(log: &[u32], counts: &[u32], work: &[u32], n: usize, t: u32) -> Check
    requires { (0 < length counts.now) × HasTables work.now n }
    ensures { result ≡ verdict (commit_tests (areas [] [] [] log.now counts.now work.now) n t) }
{
    if TXNS <= t {
        return Err(Refusal::OutOfRange);
    }
    if !store_ops::has(work, layout::ACTIVE_AT, t) {
        return Err(Refusal::WrongState);
    }
    if !all_flushed(work, n, t) {
        return Err(Refusal::Unflushed);
    }
    if room_within(log, counts, 1) {
        Ok(())
    } else {
        Err(Refusal::LogFull)
    }
}

// The commit record, and the tables; answers the received count.
pub fn commit_apply(
    received: &mut [u32],
    log: &mut [u32],
    counts: &mut [u32],
    work: &mut [u32],
    n: usize,
    t: u32,
) -> u32
    requires fits { Fits received.old log.old counts.old (commit_of t) }
    requires has_undoing { HasUndoing work.old n 0 × (0 < n) × (t < txn_count) }
    ensures { (s c : List ℕ) → out (Ok result) s c received.new log.new counts.new work.new ≡ counted (committed (areas s c received.old log.old counts.old work.old) n t) }
{
    let c = log_ops::append(received, log, counts, records::commit_of(t));
    end_tables(work, n, t);
    c
}
