ghost use Rattle.std.specs.Prelude.{◌≡◌, true, ◌*◌, ◌/◌, ◌<◌, ◌≤◌, length, get_or, set, replicate};
ghost use Rattle.words.specs.Tests.{all};
ghost use Rattle.pages.specs.Geometry.{page_words};
ghost use Rattle.records.specs.Records.{record_words, txn_count};
ghost use Rattle.records.specs.Soundness.{record_sound, records_sound};
ghost use Rattle.records.specs.Order.{open_in};
ghost use Rattle.records.specs.Recovery.{redone, undone_in, recovered};
ghost use Rattle.pages.specs.Soundness.{free_zero};
ghost use Rattle.areas.specs.Areas.{count_words};
ghost use Rattle.areas.specs.Layout.{reopening_at, running};
ghost use Rattle.log_replay.specs.Rebuilding.{leaving, taken_back};

use areas::layout;
use bit_ops::bits;
use records::Record;

// The first c records take effect, in order.
#[tactic(auto, using(crate::specs::Rebuilding::redone_turn, crate::specs::Rebuilding::sound_here, record_ops::specs::InRange::sound_in_range), unfolding(records::specs::Recovery::redone))]
fn redo(a: &mut [u32], log: &[u32], c: usize)
    requires { (record_words * c ≤ length log.now) × (records_sound (length a.old / page_words) log.now c ≡ true) }
    ensures { a.new ≡ redone a.old log.now c }
{
    for i in 0..c {
        record_ops::apply(a, log_reader::record_at(log, i));
    }
}

// A record is undone if it is of a transaction of m.
fn take_back_of(a: &mut [u32], m: u32, r: Record)
    requires { record_sound (length a.old / page_words) r ≡ true }
    ensures { a.new ≡ taken_back m a.old r }
{
    if words::has_bit(m, r.txn as usize) {
        record_ops::take_back(a, r);
    }
}

// The transactions of m without the one that a record begins: what is undone of it ends there.
fn leave(m: u32, r: Record) -> u32
    requires { r.txn < txn_count }
    ensures { result ≡ leaving m r }
{
    if r.kind == records::BEGIN {
        return bits::without_bit(m, r.txn as usize);
    }
    m
}

// The transactions of m are undone over the first c records, newest first.
#[tactic(auto, using(crate::specs::Rebuilding::undone_down, crate::specs::Rebuilding::undone_end, crate::specs::Rebuilding::undone_none, crate::specs::Rebuilding::sound_here))]
fn undo(a: &mut [u32], log: &[u32], c: usize, m: u32)
    requires { (record_words * c ≤ length log.now) × (records_sound (length a.old / page_words) log.now c ≡ true) }
    ensures { a.new ≡ undone_in log.now m c a.old }
{
    let mut left = m;
    for i in (0..c).rev() {
        if left == 0 {
            return;
        }
        let r = log_reader::record_at(log, i);
        take_back_of(a, left, r);
        left = leave(left, r);
    }
}

// An area becomes what the stored pages and the first c records give. Answers whether the free slots of its n pages are zero.
pub fn recover(stored: &[u32], a: &mut [u32], log: &[u32], n: usize, c: usize, m: u32) -> bool
    requires { (length a.old ≡ length stored.now) × (length stored.now ≡ page_words * n) × (record_words * c ≤ length log.now) × (records_sound n log.now c ≡ true) × (m ≡ open_in log.now c) }
    ensures { (result ≡ all (free_zero (recovered stored.now log.now c)) n) × (a.new ≡ recovered stored.now log.now c) }
{
    page_ops::areas::copy_area(stored, a);
    redo(a, log, c);
    undo(a, log, c, m);
    page_check::sound::pages_free_zero(a, n)
}

// The received count becomes the stable count, and the working tables clear but for a running reopening.
pub fn restart(counts: &mut [u32], work: &mut [u32])
    requires { (length counts.old ≡ count_words) × (1 ≤ length work.old) }
    ensures { (counts.new ≡ set counts.old 0 (get_or counts.old 1 0)) × (work.new ≡ set (replicate (length work.old) 0) reopening_at running) }
{
    counts[layout::RECEIVED] = counts[layout::STABLE];
    page_ops::areas::clear(work);
    work[layout::REOPENING_AT] = layout::RUNNING;
}
