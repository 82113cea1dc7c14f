// How many changes of a transaction are left, and what the active transactions reserve: one walk down the log for both.
#![tactic(auto)]

ghost use Rattle.std.specs.Prelude.{◌≡◌, ◌+◌, ◌*◌, ◌<◌, ◌≤◌, length};
ghost use Rattle.words.specs.Tests.{if};
ghost use Rattle.words.specs.Bits.{bit};
ghost use Rattle.records.specs.Records.{max_records, txn_count};
ghost use Rattle.records.specs.Changes.{noted, changes_left, reserved};
ghost use Rattle.reserves.specs.Reserves.{Walkable, sought_next, Found};

use bit_ops::bits;
use records::Record;

const TXNS: usize = records::TXNS as usize;

// What a walk down the log leaves: the transactions whose last begin was not met, and by transaction how many of its changes were.
#[derive(Clone, Copy)]
struct Walk {
    sought: u32,
    changes: [u32; TXNS],
}

// The transactions still sought below record r: the first begin on the way down is its transaction's last.
fn sought_next(sought: u32, r: Record) -> u32
    requires { r.txn < txn_count }
    ensures { result ≡ sought_next sought r }
{
    if r.kind == records::BEGIN {
        bits::without_bit(sought, r.txn as usize)
    } else {
        sought
    }
}

// Down the log until the last begin of every transaction in the mask is met. Where one has none the walk ends at the first record.
// Records of others are passed over by a branch: what ended is most of a log, and a count would wait for the one before it. Of the
// words from word `from` only those of records that count are read. A `while` and two arrays: by a `for` over `(0..c).rev()`, with one
// array of pairs or with these two, the walk took up to twice the time, wherever the test for `sought` stood.
fn walk_down(log: &[u32], work: &[u32], from: usize, c: usize, mask: u32) -> Walk
    requires { Walkable log.now work.now from c }
    ensures { Found (noted work.now from) log.now mask c result.sought result.changes }
{
    let mut sought = mask;
    let mut changes = [0u32; TXNS];
    let mut undone = [0u32; TXNS];
    let mut i = c;
    while 0 < i {
        if sought == 0 {
            break;
        }
        i -= 1;
        let r = log_reader::record_at(log, i);
        let t = r.txn as usize;
        if words::has_bit(sought, t) {
            let turn = log_turns::turn_at(r, work[from + i], r.txn, undone[t]);
            match turn {
                None => changes[t] += 1,
                Some(p) => {
                    undone[t] = p;
                    sought = sought_next(sought, r);
                }
            }
        }
    }
    Walk { sought, changes }
}

// How many changes of t are left, by what the walk met: none of one without a begin.
fn left_of(sought: u32, t: usize, x: u32) -> u32
    requires { t < txn_count }
    ensures { (result ≡ if (bit sought t) 0 x) × (result ≤ x) }
{
    if words::has_bit(sought, t) { 0 } else { x }
}

// What an active transaction reserves: a record to end it, and one for each of its changes.
fn reserve_of(active: u32, sought: u32, t: usize, x: u32) -> u32
    requires { (t < txn_count) × (x ≤ max_records) }
    ensures { (result ≡ if (bit active t) (1 + if (bit sought t) 0 x) 0) × (result ≤ max_records + 1) }
{
    if !words::has_bit(active, t) {
        return 0;
    }
    1 + left_of(sought, t, x)
}

// What the active transactions reserve. The words of work from word `from` say which records going back appended.
pub fn reserved(log: &[u32], work: &[u32], from: usize, c: usize, active: u32) -> u32
    requires { Walkable log.now work.now from c }
    ensures value { result ≡ reserved (noted work.now from) log.now c active }
    ensures upper_bound { result ≤ txn_count * (max_records + 1) }
{
    let walk = walk_down(log, work, from, c, active);
    let mut sum: u32 = 0;
    for t in 0..TXNS {
        sum += reserve_of(active, walk.sought, t, walk.changes[t]);
    }
    sum
}

// How many creates and sets of t are left.
pub fn changes_left(log: &[u32], work: &[u32], from: usize, c: usize, t: usize) -> u32
    requires { Walkable log.now work.now from c × (t < txn_count) }
    ensures { result ≡ length (changes_left (noted work.now from) log.now c t) }
{
    let walk = walk_down(log, work, from, c, bits::mask_of(t));
    left_of(walk.sought, t, walk.changes[t])
}
