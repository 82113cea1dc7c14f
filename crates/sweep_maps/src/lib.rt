// The slots that a sweeping step frees: the working tables' part, the lock and the page.
#![tactic(auto)]

ghost use Rattle.std.specs.Prelude.{◌≡◌, [], ◌^◌, ◌<◌, ◌≤◌, length};
ghost use Rattle.words.specs.Tests.{if};
ghost use Rattle.pages.specs.Geometry.{slot_count, map_top, page_at};
ghost use Rattle.pages.specs.Objects.{map_at};
ghost use Rattle.areas.specs.Areas.{areas};
ghost use Rattle.areas.specs.Layout.{HasTables};
ghost use Rattle.calls.specs.Pass as spec;
ghost use Rattle.sweep_order.specs.Order.{unmarked_map};

use areas::layout;
use bit_ops::bits;
use pages::{PAGE_WORDS, SLOTS};

// Whether slot s of page p is white and has no COT entry.
fn unmarked(work: &[u32], n: usize, p: usize, s: usize) -> bool
    requires { HasTables work.now n × (p < n) × (s < slot_count) }
    ensures { result ≡ spec.unmarked work.now n p s }
{
    let o = 1 + SLOTS * p + s;
    let colour = work[layout::colour_at(n, o)];
    let created = work[layout::created_at(n, o)];
    (colour == layout::WHITE) & (created == 0)
}

// Slot s as a map, if it is chosen.
fn slot_bit(chosen: bool, s: usize) -> u32
    requires { s < 32 }
    ensures { result ≡ if chosen (2 ^ s) 0 }
{
    if chosen { bits::mask_of(s) } else { 0 }
}

// The unmarked slots of page p.
fn unmarked_map(work: &[u32], n: usize, p: usize) -> u32
    requires { HasTables work.now n × (p < n) }
    ensures { result ≡ unmarked_map work.now n p }
{
    let mut m: u32 = 0;
    for s in 0..SLOTS {
        m += slot_bit(unmarked(work, n, p, s), s);
    }
    m
}

// Whether anyone has a lock for writing on page p.
fn locked(work: &[u32], n: usize, p: usize) -> bool
    requires { HasTables work.now n × (p < n) }
    ensures { result ≡ spec.locked work.now n p }
{
    work[layout::writers_at(n, p)] != 0
}

// The slots that a sweeping step of page p frees, in the order of the paper's sections 4.3 and 4.5: colours and COT of the page, then nothing
// to free, then the lock, then the page.
pub fn freed_map(copies: &[u32], work: &[u32], n: usize, p: usize) -> u32
    requires { HasTables work.now n × (p < n) × (page_at p < length copies.now) × (map_at copies.now p ≤ map_top) }
    ensures { result ≡ spec.freed_map (areas [] copies.now [] [] [] work.now) n p }
{
    // 4.3: 'the sweeper checks the color map and COT entries for the page before reading the page from disk'
    let u = unmarked_map(work, n, p);
    if u == 0 {
        return 0; // 4.3: 'If the page has no garbage objects on it, then the sweeper simply moves on to the next page.'
    }
    if locked(work, n, p) {
        return 0; // 4.5: 'some transaction has a write lock on the page. In this case, the sweeper simply skips the page'
    }
    // the page: which of these it has occupied
    copies[PAGE_WORDS * p] & u
}
