// Room in the log, and the one append.
#![tactic(auto)]

ghost use Rattle.std.specs.Prelude.{◌≡◌, ◌+◌, ◌<◌, ◌≤◌, length, get_or, set};
ghost use Rattle.records.specs.Records.{txn_count, max_records, recorded};
ghost use Rattle.records.specs.Effects.{effect};
ghost use Rattle.areas.specs.Layout.{HasUndoing};
ghost use Rattle.log_ops.specs.Logs.{Kept, Fits, room_in, left_in};

use areas::layout;
use records::{RECORD_WORDS, Record};

// What begin, create and set need beyond used and reserved, and what a sweep needs.
pub const CHANGE_ROOM: usize = 2;

pub const SWEEP_ROOM: usize = 1;

// Whether k more records fit beyond those used and reserved, in a store of n pages.
pub fn room_beyond(log: &[u32], counts: &[u32], work: &[u32], n: usize, k: usize) -> bool
    requires kept { Kept log.now counts.now }
    requires has_undoing { HasUndoing work.now n (get_or counts.now 0 0) × (k ≤ max_records) }
    ensures { result ≡ room_in log.now counts.now work.now n k }
{
    let c = counts[layout::RECEIVED] as usize;
    let from = layout::undoing_at(n, 0);
    let held = reserves::reserved(log, work, from, c, work[layout::ACTIVE_AT]) as usize;
    c + held + k <= log.len() / RECORD_WORDS
}

// How many creates and sets of t are left, in a store of n pages.
pub fn changes_left(log: &[u32], counts: &[u32], work: &[u32], n: usize, t: u32) -> u32
    requires kept { Kept log.now counts.now }
    requires has_undoing { HasUndoing work.now n (get_or counts.now 0 0) × (t < txn_count) }
    ensures { (result ≡ length (left_in log.now counts.now work.now n t)) × (result ≤ get_or counts.now 0 0) }
{
    let c = counts[layout::RECEIVED] as usize;
    reserves::changes_left(log, work, layout::undoing_at(n, 0), c, t as usize)
}

// A record received: written behind the others, counted, and shown by the received pages. Answers the new count.
pub fn append(received: &mut [u32], log: &mut [u32], counts: &mut [u32], r: Record) -> u32
    requires { Fits received.old log.old counts.old r }
    ensures { (result ≡ get_or counts.old 0 0 + 1) × (received.new ≡ effect received.old r) × (log.new ≡ recorded log.old (get_or counts.old 0 0) r) × (counts.new ≡ set counts.old 0 (get_or counts.old 0 0 + 1)) }
{
    let c = counts[layout::RECEIVED];
    record_ops::put_record(log, c as usize, r);
    record_ops::apply(received, r);
    counts[layout::RECEIVED] = c + 1;
    c + 1
}
