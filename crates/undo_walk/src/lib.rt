// The newest changes of a transaction that are left, undone newest first: their undoing records, and the tables that they touch.
#![tactic(auto)]

ghost use Rattle.std.specs.Prelude.{◌≡◌, [], ◌+◌, ◌<◌, ◌≤◌, take};
ghost use Rattle.pages.specs.Geometry.{object_count};
ghost use Rattle.records.specs.Records.{max_records};
ghost use Rattle.areas.specs.Areas.{areas};
ghost use Rattle.areas.specs.Layout.{HasUndoing};
ghost use Rattle.calls.specs.Marks.{taken_back, went_back};
ghost use Rattle.log_ops.specs.Logs.{left_in};
ghost use Rattle.undo_walk.specs.Going.{Goable};

use areas::layout;
use pages::SLOTS;
use records::Record;

// The tables once a change r of t is undone by record c: its page has to be flushed again, and what it created is no longer known.
fn note_back(work: &mut [u32], n: usize, t: u32, c: usize, r: Record)
    requires { HasUndoing work.old n (c + 1) × ((1 ≤ r.object) × (r.object ≤ object_count n)) × (c ≤ max_records) × (t < 32) }
    ensures { work.new ≡ taken_back work.old n t c r }
{
    let o = r.object as usize;
    store_ops::gain(work, layout::unflushed_at(n, (o - 1) / SLOTS), t);
    work[layout::undoing_at(n, c)] = 1;
    if r.kind == records::CREATE {
        store_ops::lose(work, layout::known_at(n, o), t);
    }
}

// Undoes the newest k changes of t that are left, newest first: down the log until none is left to undo.
pub fn undo_newest(
    received: &mut [u32],
    log: &mut [u32],
    counts: &mut [u32],
    work: &mut [u32],
    n: usize,
    t: u32,
    k: u32,
)
    requires { Goable received.old log.old counts.old work.old n t k }
    ensures { areas [] [] received.new log.new counts.new work.new ≡ went_back log.old (take k (left_in log.old counts.old work.old n t)) (areas [] [] received.old log.old counts.old work.old) n t }
{
    let mut i = counts[layout::RECEIVED] as usize;
    let mut left = k;
    let mut pending: u32 = 0;
    // A range over the records would end the walk a second time: it ends where nothing is left, above the first record.
    while 0 < left {
        i -= 1;
        let r = log_reader::record_at(log, i);
        let turn = log_turns::turn_at(r, work[layout::undoing_at(n, i)], t, pending);
        match turn {
            Some(p) => pending = p,
            None => {
                let c = counts[layout::RECEIVED] as usize;
                note_back(work, n, t, c, r);
                let _ = log_ops::append(received, log, counts, record_ops::undoing(r));
                left -= 1;
            }
        }
    }
}
