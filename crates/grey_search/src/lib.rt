// The search for the lowest grey object.
#![tactic(auto)]

ghost use Rattle.std.specs.Prelude.{◌≡◌, ◌+◌, ◌*◌, ◌<◌, ◌≤◌};
ghost use Rattle.pages.specs.Geometry.{slot_count};
ghost use Rattle.areas.specs.Layout.{HasTables};
ghost use Rattle.calls.specs.Pass.{lowest_grey};
ghost use Rattle.grey_search.specs.Greys.{none_grey};

use areas::layout;
use pages::SLOTS;

// 1 for the colour grey, else 0.
fn grey_one(colour: u32) -> u32
    ensures { result ≡ 0 → colour ≡ 1 → ⊥ }
{
    if colour == layout::GREY { 1 } else { 0 }
}

// 0 where no object of page p is grey, if none is below it. No branch in the loop: the colours of a page are taken several at a time.
fn page_greys(work: &[u32], n: usize, p: usize) -> u32
    requires { HasTables work.now n × (p < n) × none_grey work.now n (slot_count * p) }
    ensures { result ≡ 0 → none_grey work.now n (slot_count * p + slot_count) }
{
    let a = layout::colour_at(n, SLOTS * p + 1);
    let mut greys: u32 = 0;
    for k in 0..SLOTS {
        greys |= grey_one(work[a + k]);
    }
    greys
}

// A page with a grey object, and none below it; n where there is none.
fn grey_page(work: &[u32], n: usize) -> usize
    requires { HasTables work.now n }
    ensures { (result ≤ n) × none_grey work.now n (slot_count * result) }
{
    for p in 0..n {
        if page_greys(work, n, p) != 0 {
            return p;
        }
    }
    n
}

// The lowest grey object; one above the last where there is none. The colours are looked at page by page, then one by one.
pub fn lowest_grey(work: &[u32], n: usize) -> u32
    requires { HasTables work.now n }
    ensures { result ≡ lowest_grey work.now n }
{
    for k in SLOTS * grey_page(work, n)..SLOTS * n {
        if work[layout::colour_at(n, k + 1)] == layout::GREY {
            return k as u32 + 1;
        }
    }
    (SLOTS * n) as u32 + 1
}
