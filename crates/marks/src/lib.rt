// What a mark tests and changes: the order of a transaction's marks, and how many of its changes are left.
#![tactic(auto)]

ghost use Rattle.std.specs.Prelude.{◌≡◌, not, ◌&&◌, List, [], ℕ, ◌+◌, ◌<◌, ◌≤◌, eqb, length, get_or};
ghost use Rattle.words.specs.Tests.{if};
ghost use Rattle.words.specs.Spans.{over};
ghost use Rattle.records.specs.Records.{txn_count};
ghost use Rattle.areas.specs.Answers.{verdict};
ghost use Rattle.areas.specs.Areas.{areas};
ghost use Rattle.areas.specs.Layout.{HasUndoing, active_at, mark_count};
ghost use Rattle.calls.specs.Marks.{moved_up, set_last, mark_tests, mark_set};
ghost use Rattle.log_ops.specs.Logs.{Kept};
ghost use Rattle.marks.specs.Places.{set_but};

use areas::{Check, Refusal, layout};
use records::TXNS;

// Refusals 3 and 4 of a mark, and of going back to one.
pub fn mark_check(work: &[u32], t: u32, m: u32) -> Check
    requires { active_at < length work.now }
    ensures { result ≡ verdict (mark_tests (areas [] [] [] [] [] work.now) t m) }
{
    if !((t < TXNS) & (m < layout::MARKS)) {
        return Err(Refusal::OutOfRange);
    }
    if store_ops::has(work, layout::ACTIVE_AT, t) {
        Ok(())
    } else {
        Err(Refusal::WrongState)
    }
}

// A place in the order after place a of a mark that is set moves up by one.
fn moved_up(a: u32, b: u32) -> u32
    ensures { result ≡ moved_up a b }
{
    if (a != 0) & (a < b) { b - 1 } else { b }
}

// How many marks but m are set, with mark j, whose place is b.
fn others_next(others: u32, m: usize, j: usize, b: u32) -> u32
    requires { others ≤ mark_count }
    ensures { result ≡ others + if (not (eqb j m) && not (eqb b 0)) 1 0 }
{
    if (j != m) & (b != 0) {
        others + 1
    } else {
        others
    }
}

// The places from word i, of a transaction's marks, that come after place a move up. Answers how many marks but m are set.
fn move_up(work: &mut [u32], i: usize, m: usize, a: u32) -> u32
    requires { i + mark_count ≤ length work.old }
    ensures { (work.new ≡ over (moved_up a) work.old i mark_count) × (result ≡ set_but work.old i m mark_count) }
{
    let mut others: u32 = 0;
    for j in 0..layout::MARKS as usize {
        let b = work[i + j];
        work[i + j] = moved_up(a, b);
        others = others_next(others, m, j, b);
    }
    others
}

// Mark m leaves its place in the order of t's marks, if it has one, and becomes the last.
fn set_last(work: &mut [u32], n: usize, t: u32, m: u32)
    requires { HasUndoing work.old n 0 × (t < txn_count) × (m < mark_count) }
    ensures { work.new ≡ set_last work.old n t m }
{
    let first = layout::order_at(n, t as usize, 0);
    let i = first + m as usize;
    let place = work[i];
    let others = move_up(work, first, m as usize, place);
    work[i] = others + 1;
}

// Mark m becomes the last of t's marks, and keeps how many changes of t are left.
pub fn mark_apply(log: &[u32], counts: &[u32], work: &mut [u32], n: usize, t: u32, m: u32)
    requires kept { Kept log.now counts.now }
    requires has_undoing { HasUndoing work.old n (get_or counts.now 0 0) × (t < txn_count) × (m < mark_count) }
    ensures { (s c r : List ℕ) → areas s c r log.now counts.now work.new ≡ mark_set (areas s c r log.now counts.now work.old) n t m }
{
    let left = log_ops::changes_left(log, counts, work, n, t);
    set_last(work, n, t, m);
    work[layout::marked_at(n, t as usize, m as usize)] = left;
}
