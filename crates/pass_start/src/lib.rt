// The start of a pass.
#![tactic(auto)]

ghost use Rattle.std.specs.Prelude.{◌≡◌, ◌≤◌};
ghost use Rattle.pages.specs.Geometry.{object_count};
ghost use Rattle.areas.specs.Layout.{HasTables};
ghost use Rattle.calls.specs.Pass.{first_colour, pass_started};
ghost use Rattle.pass_start.specs.Starting.{first_colours};

use areas::layout;
use pages::{ROOT, SLOTS};
use pass_record::Pass;

// The first colour of object o: grey for the root and for a PRT target, of the objects that the pass may mark, else white.
fn first_colour(work: &[u32], n: usize, o: usize) -> u32
    requires { HasTables work.now n × (1 ≤ o) × (o ≤ object_count n) }
    ensures { result ≡ first_colour work.now n o }
{
    let pruned = work[layout::pruned_at(n, o)];
    if store_ops::may_mark(work, n, o as u32) & ((o as u32 == ROOT) | (pruned != 0)) {
        layout::GREY
    } else {
        layout::WHITE
    }
}

// The colours of all objects as a pass starts.
fn colour_first(work: &mut [u32], n: usize)
    requires { HasTables work.old n }
    ensures { work.new ≡ first_colours work.old n (object_count n) }
{
    for k in 0..SLOTS * n {
        work[layout::colour_at(n, k + 1)] = first_colour(work, n, k + 1);
    }
}

// A pass starts: flagged entries of the PRT and the COT go, then the colours.
pub fn begin_pass(work: &mut [u32], n: usize)
    requires { HasTables work.old n × (1 ≤ n) }
    ensures { work.new ≡ pass_started work.old n }
{
    let page = store_ops::pass_first(work, n) as u32;
    store_ops::leave_all(
        work,
        layout::pruned_at(n, 1),
        SLOTS * n,
        layout::FLAG as u32,
    );
    store_ops::leave_all(
        work,
        layout::created_at(n, 1),
        SLOTS * n,
        layout::FLAG as u32,
    );
    colour_first(work, n);
    let first = Pass {
        phase: layout::MARKING,
        page,
        steps: 0,
    };
    pass_record::put_pass(work, first);
}
