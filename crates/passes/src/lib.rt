// Whether a pass runs, which its start and its steps test, and one step: of marking or of sweeping.
#![tactic(auto)]

ghost use Rattle.std.specs.Prelude.{◌≡◌, List, [], ℕ, ◌<◌, length};
ghost use Rattle.areas.specs.Answers.{verdict};
ghost use Rattle.areas.specs.Areas.{areas, out};
ghost use Rattle.areas.specs.Layout.{phase_at};
ghost use Rattle.calls.specs.Pass.{pass_tests, step_tests};
ghost use Rattle.acceptance.specs.Pass.{stepped};
ghost use Rattle.passes.specs.Stepping.{Steppable};

use areas::{Answer, Check, Refusal, layout};

// Refusal 4 of a pass: one runs.
pub fn start_check(work: &[u32]) -> Check
    requires { phase_at < length work.now }
    ensures { result ≡ verdict (pass_tests (areas [] [] [] [] [] work.now)) }
{
    if work[layout::PHASE_AT] != 0 {
        return Err(Refusal::WrongState);
    }
    Ok(())
}

// Refusal 4 of a step: no pass runs.
pub fn step_check(work: &[u32]) -> Check
    requires { phase_at < length work.now }
    ensures { result ≡ verdict (step_tests (areas [] [] [] [] [] work.now)) }
{
    if work[layout::PHASE_AT] == 0 {
        return Err(Refusal::WrongState);
    }
    Ok(())
}

// One step of the pass that runs: an object scanned, or a page swept. Answers the object or the number of slots freed.
pub fn step_apply(
    copies: &mut [u32],
    received: &mut [u32],
    log: &mut [u32],
    counts: &mut [u32],
    work: &mut [u32],
    n: usize,
) -> Answer
    requires { Steppable copies.old received.old log.old counts.old work.old n }
    ensures { (s : List ℕ) → out result s copies.new received.new log.new counts.new work.new ≡ stepped (areas s copies.old received.old log.old counts.old work.old) n }
{
    let pass = pass_record::pass_of(work);
    if pass.phase == layout::MARKING {
        return Ok(marking::mark_step(copies, work, n, pass));
    }
    sweeping::sweep_step(copies, received, log, counts, work, n, pass)
}
