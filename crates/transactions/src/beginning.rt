ghost use Rattle.std.specs.Prelude.{◌≡◌, List, [], ℕ, ◌<◌, get_or, Ok};
ghost use Rattle.records.specs.Records.{txn_count, begin_of};
ghost use Rattle.areas.specs.Answers.{verdict};
ghost use Rattle.areas.specs.Areas.{areas, out};
ghost use Rattle.areas.specs.Layout.{HasUndoing};
ghost use Rattle.calls.specs.Transactions.{begin_tests, begun_tables, begun};
ghost use Rattle.log_ops.specs.Logs.{Kept, Fits, counted};

use super::clients::note_client;
use areas::{Check, Refusal, layout};
use pages::{ROOT, SLOTS};
use records::TXNS;

// Refusals 3, 4 and 11 of a begin.
pub fn begin_check(
    log: &[u32],
    counts: &[u32],
    work: &[u32],
    n: usize,
    t: u32,
    client: u32,
) -> Check
    requires kept { Kept log.now counts.now }
    requires has_undoing { HasUndoing work.now n (get_or counts.now 0 0) }
    ensures { result ≡ verdict (begin_tests (areas [] [] [] log.now counts.now work.now) n t client) }
{
    if !((t < TXNS) & (client < layout::CLIENTS)) {
        return Err(Refusal::OutOfRange);
    }
    if store_ops::has(work, layout::ACTIVE_AT, t) {
        return Err(Refusal::WrongState);
    }
    if log_ops::room_beyond(log, counts, work, n, log_ops::CHANGE_ROOM) {
        Ok(())
    } else {
        Err(Refusal::LogFull)
    }
}

// t becomes active, as the client's, and knows the root only.
fn begin_tables(work: &mut [u32], n: usize, t: u32, client: u32)
    requires { HasUndoing work.old n 0 × (0 < n) × (t < txn_count) }
    ensures { work.new ≡ begun_tables work.old n t client }
{
    store_ops::gain(work, layout::ACTIVE_AT, t);
    store_ops::leave_all(work, layout::known_at(n, 1), SLOTS * n, t);
    store_ops::gain(work, layout::known_at(n, ROOT as usize), t);
    note_client(work, n, t, client);
}

// The begin record, and the tables; answers the received count.
pub fn begin_apply(
    received: &mut [u32],
    log: &mut [u32],
    counts: &mut [u32],
    work: &mut [u32],
    n: usize,
    t: u32,
    client: u32,
) -> u32
    requires fits { Fits received.old log.old counts.old (begin_of t) }
    requires has_undoing { HasUndoing work.old n 0 × (0 < n) × (t < txn_count) }
    ensures { (s c : List ℕ) → out (Ok result) s c received.new log.new counts.new work.new ≡ counted (begun (areas s c received.old log.old counts.old work.old) n t client) }
{
    let c = log_ops::append(received, log, counts, records::begin_of(t));
    begin_tables(work, n, t, client);
    c
}
