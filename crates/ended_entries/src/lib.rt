// The PRT's and COT's entries of a transaction that ends.
#![tactic(auto)]

ghost use Rattle.std.specs.Prelude.{◌≡◌, true, ◌+◌, ◌^◌, ◌<◌, ◌≤◌, eqb, length};
ghost use Rattle.words.specs.Tests.{if};
ghost use Rattle.words.specs.Spans.{over};
ghost use Rattle.pages.specs.Geometry.{slot_count};
ghost use Rattle.areas.specs.Layout.{phase_at};
ghost use Rattle.areas.specs.Tables.{flag};
ghost use Rattle.calls.specs.Transactions.{ended_entry, ended_entries};
ghost use Rattle.ended_entries.specs.Entries.{joined};

use areas::layout;
use bit_ops::bits;
use pages::SLOTS;

// The flag where the mask was another with t in it, else 0: a word to join, so that a run of masks needs no branch.
fn flag_for(left: u32, m: u32) -> u32
    ensures { result ≡ if (eqb left m) 0 (2 ^ flag) }
{
    if left == m {
        0
    } else {
        bits::mask_of(layout::FLAG)
    }
}

// A mask of the PRT or the COT once t has ended while a pass runs: the flag stands for t.
fn flagged_entry(m: u32, t: u32) -> u32
    requires { t < 32 }
    ensures { result ≡ ended_entry true t m }
{
    let left = bits::without_bit(m, t as usize);
    left | flag_for(left, m)
}

// The masks of a run from word a, joined: t is in the word where it is in one of them. No branch in the loop: the masks are taken several at a time.
fn masks_joined(w: &[u32], a: usize) -> u32
    requires { a + slot_count ≤ length w.now }
    ensures { result ≡ joined w.now a slot_count }
{
    w[a..a + SLOTS].iter().fold(0, |masks, mask| masks | *mask)
}

// The k masks of the PRT or the COT from word a once t has ended while a pass runs, one by one.
fn flag_each(w: &mut [u32], a: usize, k: usize, t: u32)
    requires { (a + k ≤ length w.old) × (t < 32) }
    ensures { w.new ≡ over (ended_entry true t) w.old a k }
{
    for mask in &mut w[a..a + k] {
        *mask = flagged_entry(*mask, t);
    }
}

// The same of a run: as many masks as a page has objects. Nearly none has t in it, so a run is rewritten only where one of its masks has.
fn flag_run(w: &mut [u32], a: usize, t: u32)
    requires { (a + slot_count ≤ length w.old) × (t < 32) }
    ensures { w.new ≡ over (ended_entry true t) w.old a slot_count }
{
    if !words::has_bit(masks_joined(w, a), t as usize) {
        return;
    }
    flag_each(w, a, SLOTS, t);
}

// The k masks of the PRT or the COT from word a once t has ended. Where no pass runs t leaves them as it leaves the others.
pub fn end_entries(w: &mut [u32], a: usize, k: usize, t: u32)
    requires { (phase_at < length w.old) × (a + k ≤ length w.old) × (t < 32) }
    ensures { w.new ≡ ended_entries t w.old a k }
{
    let runs = w[layout::PHASE_AT] != 0;
    if !runs {
        store_ops::leave_all(w, a, k, t);
        return;
    }
    for j in 0..k / SLOTS {
        flag_run(w, a + SLOTS * j, t);
    }
    let rest = k % SLOTS;
    flag_each(w, a + k - rest, rest, t);
}
