// The bench program's calls of transactions.
ghost use Rattle.std.specs.Prelude.{◌≡◌};
ghost use Rattle.areas.specs.Areas.{areas, out};
ghost use Rattle.bench_run.specs.Bench.{transaction_call};

use areas::Answer;
use bench_names::TransactionCall;
use transaction_calls::{begin, commit};

// Does a call of a transaction.
pub fn transaction_call(
    stored: &[u32],
    copies: &mut [u32],
    received: &mut [u32],
    log: &mut [u32],
    counts: &mut [u32],
    work: &mut [u32],
    c: TransactionCall,
) -> Answer
    ensures { out result stored.now copies.new received.new log.new counts.new work.new ≡ transaction_call (areas stored.now copies.old received.old log.old counts.old work.old) c }
{
    match c {
        TransactionCall::Begin(t) => begin(
            stored,
            copies,
            received,
            log,
            counts,
            work,
            t,
            bench_rights::CLIENT,
        ),
        TransactionCall::Commit(t) => commit(stored, copies, received, log, counts, work, t),
        TransactionCall::Abort(t) => transaction_calls::abort(
            stored, copies, received, log, counts, work, t,
        ),
    }
}
