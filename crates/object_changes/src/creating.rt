ghost use Rattle.std.specs.Prelude.{◌≡◌, ◌+◌, ◌<◌, ◌≤◌, get_or, set};
ghost use Rattle.pages.specs.Geometry.{object_count};
ghost use Rattle.records.specs.Records.{txn_count, create_of, recorded};
ghost use Rattle.records.specs.Effects.{effect};
ghost use Rattle.areas.specs.Layout.{HasTables};
ghost use Rattle.log_ops.specs.Logs.{Fits};
ghost use Rattle.object_changes.specs.Changing.{entered_new};

use areas::layout;
use pages::SLOTS;

// The tables gain a new object o for t: its page has a record not flushed, t knows it, and the COT has it.
fn enter_new(work: &mut [u32], n: usize, t: u32, o: u32)
    requires { HasTables work.old n × (t < txn_count) × (1 ≤ o) × (o ≤ object_count n) }
    ensures { work.new ≡ entered_new work.old n t o }
{
    store_ops::gain(work, layout::unflushed_at(n, (o as usize - 1) / SLOTS), t);
    store_ops::gain(work, layout::known_at(n, o as usize), t);
    store_ops::gain(work, layout::created_at(n, o as usize), t);
}

// What an accepted create does. Answers the new received count.
pub fn create_apply(
    received: &mut [u32],
    log: &mut [u32],
    counts: &mut [u32],
    work: &mut [u32],
    n: usize,
    t: u32,
    o: u32,
) -> u32
    requires { Fits received.old log.old counts.old (create_of t o) × HasTables work.old n × (t < txn_count) × (1 ≤ o) × (o ≤ object_count n) }
    ensures { (result ≡ get_or counts.old 0 0 + 1) × (received.new ≡ effect received.old (create_of t o)) × (log.new ≡ recorded log.old (get_or counts.old 0 0) (create_of t o)) × (counts.new ≡ set counts.old 0 (get_or counts.old 0 0 + 1)) × (work.new ≡ entered_new work.old n t o) }
{
    enter_new(work, n, t, o);
    log_ops::append(received, log, counts, records::create_of(t, o))
}
