// The call of each line of the bench program.
#![tactic(auto)]

ghost use Rattle.std.specs.Prelude.{◌≡◌};
ghost use Rattle.areas.specs.Areas.{areas, out};
ghost use Rattle.bench_run.specs.Bench.{bench_call};

use areas::{Answer, Refusal};
use bench_names::Command;
use bench_objects::object_call;
use lock::lock_call;
use pass::pass_call;
use reopen::reopening_call;
use stable::stability_call;
use transaction::transaction_call;

mod lock;
mod pass;
mod reopen;
mod stable;
mod transaction;

// Does the call of a line.
pub fn serve(
    stored: &mut [u32],
    copies: &mut [u32],
    received: &mut [u32],
    log: &mut [u32],
    counts: &mut [u32],
    work: &mut [u32],
    c: Command,
) -> Answer
    ensures { out result stored.new copies.new received.new log.new counts.new work.new ≡ bench_call (areas stored.old copies.old received.old log.old counts.old work.old) c }
{
    match c {
        Command::Transaction(c) => transaction_call(stored, copies, received, log, counts, work, c),
        Command::Lock(c) => lock_call(stored, copies, received, log, counts, work, c),
        Command::Object(c) => object_call(stored, copies, received, log, counts, work, c),
        Command::Stability(c) => stability_call(stored, copies, received, log, counts, work, c),
        Command::Collection(c) => pass_call(stored, copies, received, log, counts, work, c),
        Command::Reopening(c) => reopening_call(stored, copies, received, log, counts, work, c),
        Command::NoCall => Err(Refusal::Malformed),
    }
}
