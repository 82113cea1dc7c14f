// A new store: the root alone in all three page areas, an empty log, and clear working tables.
#![tactic(auto)]

ghost use Rattle.std.specs.Prelude.{◌≡◌, ◌<◌, ◌≤◌, length};
ghost use Rattle.pages.specs.Geometry.{page_words};
ghost use Rattle.areas.specs.Areas.{areas, out};
ghost use Rattle.areas.specs.Layout.{reopening_at};
ghost use Rattle.calls.specs.Formatting.{call_format};
ghost use Rattle.formatting.specs.Formats.{zeros, formatted_area, formatted_work};

use areas::{Answer, Refusal, layout};
use pages::ROOT;

// A page area becomes the root alone.
fn format_pages(a: &mut [u32])
    requires { page_words ≤ length a.old }
    ensures { a.new ≡ formatted_area a.old }
{
    page_ops::areas::clear(a);
    page_ops::change::occupy(a, ROOT);
}

// The working tables become clear but for a finished reopening.
fn format_tables(work: &mut [u32])
    requires { reopening_at < length work.old }
    ensures { work.new ≡ formatted_work work.old }
{
    page_ops::areas::clear(work);
    work[layout::REOPENING_AT] = layout::FINISHED;
}

// Makes a new store of all six areas; looks at their lengths only.
pub fn format(
    stored: &mut [u32],
    copies: &mut [u32],
    received: &mut [u32],
    log: &mut [u32],
    counts: &mut [u32],
    work: &mut [u32],
) -> Answer
    ensures { out result stored.new copies.new received.new log.new counts.new work.new ≡ call_format (areas stored.old copies.old received.old log.old counts.old work.old) }
{
    if !entry::lengths_fit(
        stored.len(),
        copies.len(),
        received.len(),
        log.len(),
        counts.len(),
        work.len(),
    ) {
        return Err(Refusal::Malformed);
    }
    format_pages(stored);
    format_pages(copies);
    format_pages(received);
    page_ops::areas::clear(log);
    page_ops::areas::clear(counts);
    format_tables(work);
    Ok(0)
}
