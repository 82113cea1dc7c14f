// The bench program's calls of a pass.
ghost use Rattle.std.specs.Prelude.{◌≡◌};
ghost use Rattle.areas.specs.Areas.{areas, out};
ghost use Rattle.bench_run.specs.Bench.{pass_call};

use areas::Answer;
use bench_names::PassCall;

// Does a call of a pass.
pub fn pass_call(
    stored: &[u32],
    copies: &mut [u32],
    received: &mut [u32],
    log: &mut [u32],
    counts: &mut [u32],
    work: &mut [u32],
    c: PassCall,
) -> Answer
    ensures { out result stored.now copies.new received.new log.new counts.new work.new ≡ pass_call (areas stored.now copies.old received.old log.old counts.old work.old) c }
{
    match c {
        PassCall::Pass => pass_calls::start_pass(stored, copies, received, log, counts, work),
        PassCall::Step => pass_calls::pass_step(stored, copies, received, log, counts, work),
    }
}
