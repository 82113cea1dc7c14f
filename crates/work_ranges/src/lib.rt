// Refusal 1's ranges of the working tables.
#![tactic(auto)]

ghost use Rattle.std.specs.Prelude.{◌≡◌, ◌+◌, ◌≤◌, length};
ghost use Rattle.words.specs.Spans.{up_to};
ghost use Rattle.pages.specs.Geometry.{max_pages};
ghost use Rattle.records.specs.Records.{max_records};
ghost use Rattle.areas.specs.Layout.{work_words, changes_top, order_top, client_top, undoing_top};
ghost use Rattle.areas.specs.Ranges.{work_in_range};
ghost use Rattle.work_ranges.specs.Scans.{later_in_range};

use areas::layout;
use pages::SLOTS;
use records::MASK_TOP;

// Whether the n words from a are at most top. No word ends the scan early: without a branch it takes several words at a time.
fn words_up_to(w: &[u32], a: usize, n: usize, top: u32) -> bool
    requires { a + n ≤ length w.now }
    ensures { result ≡ up_to w.now a n top }
{
    w[a..a + n].iter().fold(true, |ok, x| ok & (*x <= top))
}

// The largest values of the words of marks, of the clients and of the undoing words, with a log of l records.
fn changes_top(l: usize) -> u32
    requires { l ≤ max_records }
    ensures { result ≡ changes_top l }
{
    if l < 2 { 0 } else { (l as u32 - 2) / 2 }
}

fn order_top(l: usize) -> u32
    ensures { result ≡ order_top l }
{
    if 1 < l { layout::MARKS } else { 0 }
}

fn client_top(l: usize) -> u32
    ensures { result ≡ client_top l }
{
    if 1 < l { layout::CLIENT_TOP } else { 0 }
}

fn undoing_top(l: usize) -> u32
    ensures { result ≡ undoing_top l }
{
    if 3 < l { 1 } else { 0 }
}

// Whether the words of marks, clients, rights and undoing records are in range.
fn later_in_range(w: &[u32], n: usize, l: usize) -> bool
    requires { (length w.now ≡ work_words n l) × (1 ≤ n) × (n ≤ max_pages) × (l ≤ max_records) }
    ensures { result ≡ later_in_range w.now n l }
{
    let marks = layout::marked_at(n, 0, 0);
    let order = layout::order_at(n, 0, 0);
    let clients = layout::client_at(n, 0);
    let rights = layout::right_at(n, 0, 0);
    let undoing = layout::undoing_at(n, 0);
    words_up_to(w, marks, order - marks, changes_top(l))
        & words_up_to(w, order, clients - order, order_top(l))
        & words_up_to(w, clients, rights - clients, client_top(l))
        & words_up_to(w, rights, undoing - rights, layout::WRITING)
        & words_up_to(w, undoing, l, undoing_top(l))
}

// Whether the working words of n pages and l records are in range. Tables that follow one another and have the same largest value are
// one run.
pub fn work_in_range(w: &[u32], n: usize, l: usize) -> bool
    requires { (length w.now ≡ work_words n l) × (1 ≤ n) × (n ≤ max_pages) × (l ≤ max_records) }
    ensures { result ≡ work_in_range w.now n l }
{
    let m = n as u32;
    if !((w[layout::REOPENING_AT] <= layout::FINISHED)
        & (w[layout::REOPENING_PAGE_AT] <= m)
        & (w[layout::PHASE_AT] <= layout::SWEEPING)
        & (w[layout::PASS_PAGE_AT] <= m - 1)
        & (w[layout::STEPS_AT] <= layout::STEPS_PER_PAGE * m))
    {
        return false;
    }
    let flagged = layout::pruned_at(n, 1);
    let colours = layout::colour_at(n, 1);
    words_up_to(w, layout::ACTIVE_AT, flagged - layout::ACTIVE_AT, MASK_TOP)
        & words_up_to(w, flagged, colours - flagged, layout::FLAGGED_TOP)
        & words_up_to(w, colours, SLOTS * n, layout::BLACK)
        & later_in_range(w, n, l)
}
