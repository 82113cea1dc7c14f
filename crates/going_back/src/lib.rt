// What going back to a mark tests and changes: the changes since the mark, undone, and the marks set after it, dropped.
#![tactic(auto)]

ghost use Rattle.std.specs.Prelude.{◌≡◌, List, [], ℕ, ◌<◌, ◌≤◌, ltb, length, get_or, set};
ghost use Rattle.words.specs.Tests.{if};
ghost use Rattle.records.specs.Records.{max_records, txn_count};
ghost use Rattle.areas.specs.Answers.{verdict};
ghost use Rattle.areas.specs.Areas.{areas};
ghost use Rattle.areas.specs.Layout.{HasUndoing, mark_count, marked_at, order_at};
ghost use Rattle.calls.specs.Marks.{order_of, since_mark, back_tests, dropped, back_to};
ghost use Rattle.log_ops.specs.Logs.{Kept};
ghost use Rattle.undo_walk.specs.Going.{Goable};

use areas::{Check, Refusal, layout};

// How many changes of t since its mark m are left.
fn since_mark(log: &[u32], counts: &[u32], work: &[u32], n: usize, t: u32, m: u32) -> u32
    requires kept { Kept log.now counts.now }
    requires has_undoing { HasUndoing work.now n (get_or counts.now 0 0) × (t < txn_count) × (m < mark_count) }
    ensures { (result ≡ length (since_mark (areas [] [] [] log.now counts.now work.now) n t m)) × (result ≤ max_records) }
{
    let left = log_ops::changes_left(log, counts, work, n, t);
    let marked = work[layout::marked_at(n, t as usize, m as usize)];
    if marked < left { left - marked } else { 0 }
}

// Refusals 3, 4, 16 and 11 of going back.
pub fn back_check(log: &[u32], counts: &[u32], work: &[u32], n: usize, t: u32, m: u32) -> Check
    requires kept { Kept log.now counts.now }
    requires has_undoing { HasUndoing work.now n (get_or counts.now 0 0) }
    ensures { result ≡ verdict (back_tests (areas [] [] [] log.now counts.now work.now) n t m) }
{
    // The refusal by its name: an edit of a `?` here leaves the proof without the names that it cites.
    if let Err(x) = marks::mark_check(work, t, m) {
        return Err(x);
    }
    if work[layout::order_at(n, t as usize, m as usize)] == 0 {
        return Err(Refusal::Unmarked);
    }
    let since = since_mark(log, counts, work, n, t, m);
    if transactions::room_within(log, counts, since as usize) {
        Ok(())
    } else {
        Err(Refusal::LogFull)
    }
}

// Mark j of t goes where its place comes after place a.
fn drop_mark(work: &mut [u32], n: usize, t: u32, a: u32, j: usize)
    requires { HasUndoing work.old n 0 × (t < txn_count) × (j < mark_count) }
    ensures { work.new ≡ if (ltb a (order_of work.old n t j)) (set (set work.old (marked_at n t j) 0) (order_at n t j) 0) work.old }
{
    let i = layout::order_at(n, t as usize, j);
    if a < work[i] {
        work[layout::marked_at(n, t as usize, j)] = 0;
        work[i] = 0;
    }
}

// The marks of t whose place comes after place a go.
fn drop_later(work: &mut [u32], n: usize, t: u32, a: u32)
    requires { HasUndoing work.old n 0 × (t < txn_count) }
    ensures { work.new ≡ dropped work.old n t a mark_count }
{
    for j in 0..layout::MARKS as usize {
        drop_mark(work, n, t, a, j);
    }
}

// The changes of t since its mark m undone, newest first, and the marks set after it dropped.
pub fn back_apply(
    received: &mut [u32],
    log: &mut [u32],
    counts: &mut [u32],
    work: &mut [u32],
    n: usize,
    t: u32,
    m: u32,
)
    requires { Goable received.old log.old counts.old work.old n t (length (since_mark (areas [] [] [] log.old counts.old work.old) n t m)) × (m < mark_count) }
    ensures { (s c : List ℕ) → areas s c received.new log.new counts.new work.new ≡ back_to (areas s c received.old log.old counts.old work.old) n t m }
{
    let k = since_mark(log, counts, work, n, t, m);
    undo_walk::undo_newest(received, log, counts, work, n, t, k);
    let place = work[layout::order_at(n, t as usize, m as usize)];
    drop_later(work, n, t, place);
}
