ghost use Rattle.std.specs.Prelude.{◌≡◌, true, ◌+◌, ◌*◌, ◌<◌, ◌≤◌, length, get_or, set};
ghost use Rattle.pages.specs.Geometry.{slot_words, page_words, object_count, is_ref};
ghost use Rattle.pages.specs.Objects.{word_of};
ghost use Rattle.records.specs.Records.{txn_count, set_of, recorded};
ghost use Rattle.records.specs.Effects.{effect};
ghost use Rattle.areas.specs.Layout.{HasTables};
ghost use Rattle.calls.specs.Objects.{pruned};
ghost use Rattle.log_ops.specs.Logs.{Fits};
ghost use Rattle.object_changes.specs.Changing.{entered_write, entered_set};

use areas::layout;
use page_ops::change;
use pages::SLOTS;

// The PRT gains x for t; while marking, x turns grey if it is white.
fn prune(work: &mut [u32], n: usize, t: u32, x: u32)
    requires { HasTables work.old n × (t < txn_count) × (1 ≤ x) × (x ≤ object_count n) }
    ensures { work.new ≡ pruned work.old n t x }
{
    let marking = pass_record::pass_of(work).phase == layout::MARKING;
    store_ops::gain(work, layout::pruned_at(n, x as usize), t);
    if marking {
        store_ops::turn_grey(work, n, x);
    }
}

// The tables gain a write of v over old into word f of object o: its page has a record of t not flushed, and a reference other than 0
// that changes is pruned.
fn enter_write(
    received: &[u32],
    work: &mut [u32],
    n: usize,
    t: u32,
    o: u32,
    f: u32,
    old: u32,
    v: u32,
)
    requires { HasTables work.old n × (t < txn_count) × (1 ≤ o) × (o ≤ object_count n) × (is_ref received.now o f ≡ true → old ≤ object_count n) }
    ensures { work.new ≡ entered_write received.now work.old n t o f old v }
{
    store_ops::gain(work, layout::unflushed_at(n, (o as usize - 1) / SLOTS), t);
    if change::is_ref(received, o, f) & (old != 0) & (old != v) {
        prune(work, n, t, old);
    }
}

// What an accepted set does. Answers the new received count.
pub fn set_apply(
    received: &mut [u32],
    log: &mut [u32],
    counts: &mut [u32],
    work: &mut [u32],
    n: usize,
    t: u32,
    o: u32,
    f: u32,
    v: u32,
) -> u32
    requires { Fits received.old log.old counts.old (set_of t o f (word_of received.old o f) v) × (page_words * n ≤ length received.old) × HasTables work.old n × (t < txn_count) × (1 ≤ o) × (o ≤ object_count n) × (f < slot_words) × (is_ref received.old o f ≡ true → word_of received.old o f ≤ object_count n) }
    ensures { (result ≡ get_or counts.old 0 0 + 1) × (received.new ≡ effect received.old (set_of t o f (word_of received.old o f) v)) × (log.new ≡ recorded log.old (get_or counts.old 0 0) (set_of t o f (word_of received.old o f) v)) × (counts.new ≡ set counts.old 0 (get_or counts.old 0 0 + 1)) × (work.new ≡ entered_set received.old work.old n t o f v) }
{
    let old = change::word_of(received, o, f);
    enter_write(received, work, n, t, o, f, old, v);
    log_ops::append(received, log, counts, records::set_of(t, o, f, old, v))
}
