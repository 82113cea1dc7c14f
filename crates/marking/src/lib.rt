// One marking step.
#![tactic(auto)]

ghost use Rattle.std.specs.Prelude.{◌≡◌, ◌+◌, ◌<◌, ◌≤◌, length};
ghost use Rattle.pages.specs.Geometry.{slot_words, page_words, max_pages, object_count, page_at, page_of};
ghost use Rattle.areas.specs.Layout.{HasTables};
ghost use Rattle.calls.specs.Pass.{scanned};
ghost use Rattle.pass_record.specs.Step.{pass_of};
ghost use Rattle.marking.specs.Targets.{target_greyed, targets_of};
ghost use Rattle.marking.specs.Steps.{mark_value, mark_work};

use areas::layout;
use page_ops::change;
use pages::{SLOT_WORDS, SLOTS};
use pass_record::Pass;

// Word f of object o: if it is a reference, its white target turns grey.
fn grey_target(copies: &[u32], work: &mut [u32], n: usize, o: u32, f: u32)
    requires { HasTables work.old n × (1 ≤ o) × (f < slot_words) × (page_at (page_of o) + page_words ≤ length copies.now) }
    ensures { work.new ≡ target_greyed copies.now work.old n o f }
{
    if !change::is_ref(copies, o, f) {
        return;
    }
    store_ops::turn_grey(work, n, change::word_of(copies, o, f));
}

// The white targets of object o turn grey, if its slot is occupied in the copies.
fn grey_targets(copies: &[u32], work: &mut [u32], n: usize, o: u32)
    requires { HasTables work.old n × (1 ≤ o) × (page_at (page_of o) + page_words ≤ length copies.now) }
    ensures { work.new ≡ targets_of copies.now work.old n o }
{
    if !change::occupied(copies, o) {
        return;
    }
    for f in 0..SLOT_WORDS as u32 {
        grey_target(copies, work, n, o, f);
    }
}

// Object o is scanned: its white targets turn grey, and it turns black.
fn scan_object(copies: &[u32], work: &mut [u32], n: usize, o: u32)
    requires { HasTables work.old n × (1 ≤ o) × (o ≤ object_count n) × (page_at n ≤ length copies.now) }
    ensures { work.new ≡ scanned copies.now work.old n o }
{
    grey_targets(copies, work, n, o);
    work[layout::colour_at(n, o as usize)] = layout::BLACK;
}

// A marking step: the lowest grey object is scanned, or the pass turns to sweeping. Answers the object.
pub fn mark_step(copies: &[u32], work: &mut [u32], n: usize, pass: Pass) -> u32
    requires { HasTables work.old n × (page_at n ≤ length copies.now) × (pass.page < max_pages) × (pass.phase ≡ 1) × (pass ≡ pass_of work.old) }
    ensures value { result ≡ mark_value work.old n }
    ensures work_after { work.new ≡ mark_work copies.now work.old n }
{
    let first = store_ops::pass_first(work, n);
    let end = store_ops::pass_end(work, n);
    let o = grey_search::lowest_grey(work, n);
    if (SLOTS * n) < o as usize {
        pass_record::put_pass(work, pass_record::advanced(pass, n, first, end, false));
        return 0;
    }
    scan_object(copies, work, n, o);
    pass_record::put_pass(work, pass_record::advanced(pass, n, first, end, true));
    o
}
