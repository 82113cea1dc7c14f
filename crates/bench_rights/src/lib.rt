// The bench program's rights: client 0 has all of them.
#![tactic(auto)]

ghost use Rattle.std.specs.Prelude.{◌≡◌};
ghost use Rattle.areas.specs.Areas.{areas, out};
ghost use Rattle.bench_run.specs.Bench.{bench_pages, all_given, rights_again};

use areas::{Answer, layout};

// The one client, and the pages of the store.
pub const CLIENT: u32 = 0;

pub const PAGES: u32 = 4;

// Gives the client all rights on every page.
pub fn give_all(
    stored: &[u32],
    copies: &[u32],
    received: &[u32],
    log: &[u32],
    counts: &[u32],
    work: &mut [u32],
)
    ensures { areas stored.now copies.now received.now log.now counts.now work.new ≡ all_given (areas stored.now copies.now received.now log.now counts.now work.old) bench_pages }
{
    for p in 0..PAGES {
        // What it leaves is all that counts, as in `all_given`.
        let _ = right_calls::grant(
            stored,
            copies,
            received,
            log,
            counts,
            work,
            CLIENT,
            p,
            layout::WRITING,
        );
    }
}

// After a reopening's step that answered a: all rights again where it was the last.
pub fn give_again(
    stored: &[u32],
    copies: &[u32],
    received: &[u32],
    log: &[u32],
    counts: &[u32],
    work: &mut [u32],
    a: Answer,
) -> Answer
    ensures { out result stored.now copies.now received.now log.now counts.now work.new ≡ rights_again (record { answer = a; after = areas stored.now copies.now received.now log.now counts.now work.old }) }
{
    let v = a?;
    if v == PAGES {
        give_all(stored, copies, received, log, counts, work);
    }
    Ok(v)
}
