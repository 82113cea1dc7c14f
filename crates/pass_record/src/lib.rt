// The pass record: phase, page and step number, by value, and one step of it.
#![tactic(auto)]

ghost use Rattle.std.specs.Prelude.{◌≡◌, ◌<◌, ◌≤◌, length};
ghost use Rattle.pages.specs.Geometry.{max_pages};
ghost use Rattle.areas.specs.Layout.{steps_at};
ghost use Rattle.pass_record.specs.Step.{pass_of, with_record, steps_after, pass_next};

use areas::layout;

// The pass record.
#[derive(Clone, Copy)]
pub struct Pass {
    pub phase: u32,
    pub page: u32,
    pub steps: u32,
}

// The pass record of the working tables.
pub fn pass_of(work: &[u32]) -> Pass
    requires { steps_at < length work.now }
    ensures { result ≡ pass_of work.now }
{
    Pass {
        phase: work[layout::PHASE_AT],
        page: work[layout::PASS_PAGE_AT],
        steps: work[layout::STEPS_AT],
    }
}

// The pass record is put into the working tables.
pub fn put_pass(work: &mut [u32], p: Pass)
    requires { steps_at < length work.old }
    ensures { work.new ≡ with_record work.old p }
{
    work[layout::PHASE_AT] = p.phase;
    work[layout::PASS_PAGE_AT] = p.page;
    work[layout::STEPS_AT] = p.steps;
}

// The number of the next step; at its bound, which no calls lead to, it stays.
fn steps_next(steps: u32, n: usize) -> u32
    requires { n ≤ max_pages }
    ensures { result ≡ steps_after steps n }
{
    let most = layout::STEPS_PER_PAGE * (n as u32);
    if steps < most { steps + 1 } else { most }
}

// One step, by value: one object more while marking, if one is grey, else the turn to sweeping, from page first; while sweeping one page
// more, and at page end the pass is over.
fn step(p: Pass, n: usize, first: usize, end: usize, grey: bool) -> Pass
    requires { (p.page < max_pages) × (n ≤ max_pages) × (first ≤ max_pages) }
    ensures { result ≡ pass_next p n first end grey }
{
    let steps = steps_next(p.steps, n);
    if p.phase == layout::MARKING {
        if grey {
            return Pass {
                phase: layout::MARKING,
                page: p.page,
                steps,
            };
        }
        return Pass {
            phase: layout::SWEEPING,
            page: first as u32,
            steps,
        };
    }
    let next = p.page + 1;
    if (next as usize) < end {
        return Pass {
            phase: layout::SWEEPING,
            page: next,
            steps,
        };
    }
    Pass {
        phase: 0,
        page: 0,
        steps: 0,
    }
}

// The pass record, lent, advances by one step.
fn advance(p: &mut Pass, n: usize, first: usize, end: usize, grey: bool)
    requires { (p.old.page < max_pages) × (n ≤ max_pages) × (first ≤ max_pages) }
    ensures { p.new ≡ pass_next p.old n first end grey }
{
    *p = step(*p, n, first, end, grey);
}

// The pass record after one step: what is lent is the function's own copy.
pub fn advanced(p: Pass, n: usize, first: usize, end: usize, grey: bool) -> Pass
    requires { (p.page < max_pages) × (n ≤ max_pages) × (first ≤ max_pages) }
    ensures { result ≡ pass_next p n first end grey }
{
    let mut q = p;
    advance(&mut q, n, first, end, grey);
    q
}
