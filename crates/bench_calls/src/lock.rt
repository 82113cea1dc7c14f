// The bench program's calls for a lock.
ghost use Rattle.std.specs.Prelude.{◌≡◌};
ghost use Rattle.areas.specs.Areas.{areas, out};
ghost use Rattle.bench_run.specs.Bench.{lock_call};

use areas::Answer;
use bench_names::LockCall;
use lock_calls::{lock_read, lock_write};

// Does a call for a lock.
pub fn lock_call(
    stored: &[u32],
    copies: &[u32],
    received: &[u32],
    log: &[u32],
    counts: &[u32],
    work: &mut [u32],
    c: LockCall,
) -> Answer
    ensures { out result stored.now copies.now received.now log.now counts.now work.new ≡ lock_call (areas stored.now copies.now received.now log.now counts.now work.old) c }
{
    match c {
        LockCall::LockRead(t, p) => lock_read(stored, copies, received, log, counts, work, t, p),
        LockCall::LockWrite(t, p) => lock_write(stored, copies, received, log, counts, work, t, p),
    }
}
