// The bench program's calls that make something stable.
ghost use Rattle.std.specs.Prelude.{◌≡◌};
ghost use Rattle.areas.specs.Areas.{areas, out};
ghost use Rattle.bench_run.specs.Bench.{stability_call};

use areas::Answer;
use bench_names::StabilityCall;
use stability_calls::{empty_log, force, store_page};

// Does a call that makes something stable.
pub fn stability_call(
    stored: &mut [u32],
    copies: &[u32],
    received: &[u32],
    log: &[u32],
    counts: &mut [u32],
    work: &mut [u32],
    c: StabilityCall,
) -> Answer
    ensures { out result stored.new copies.now received.now log.now counts.new work.new ≡ stability_call (areas stored.old copies.now received.now log.now counts.old work.old) c }
{
    match c {
        StabilityCall::Store(p) => store_page(stored, copies, received, log, counts, work, p),
        StabilityCall::Force => force(stored, copies, received, log, counts, work),
        StabilityCall::Empty => empty_log(stored, copies, received, log, counts, work),
    }
}
