// The bench program's calls of a reopening.
ghost use Rattle.std.specs.Prelude.{◌≡◌};
ghost use Rattle.areas.specs.Areas.{areas, out};
ghost use Rattle.bench_run.specs.Bench.{reopening_call};

use areas::Answer;
use bench_names::ReopeningCall;
use bench_rights::give_again;

// Does a call of a reopening.
pub fn reopening_call(
    stored: &mut [u32],
    copies: &mut [u32],
    received: &mut [u32],
    log: &[u32],
    counts: &mut [u32],
    work: &mut [u32],
    c: ReopeningCall,
) -> Answer
    ensures { out result stored.new copies.new received.new log.now counts.new work.new ≡ reopening_call (areas stored.old copies.old received.old log.now counts.old work.old) c }
{
    match c {
        ReopeningCall::Reopen => reopening_calls::reopen(
            stored, copies, received, log, counts, work,
        ),
        ReopeningCall::Restep => {
            let a = reopening_calls::restep(stored, copies, received, log, counts, work);
            give_again(stored, copies, received, log, counts, work, a)
        }
    }
}
