// A page by columns, and back: the calls that arrange a page. They need no store.
#![tactic(auto)]

ghost use Rattle.std.specs.Prelude.{◌≡◌, ◌&&◌, eqb};
ghost use Rattle.pages.specs.Geometry.{page_words};
ghost use Rattle.columns.specs.Columns.{to_columns, from_columns};
ghost use Rattle.columns.specs.ColumnCalls.{arrange_answer, arranged};

use areas::{Answer, Refusal};

pub mod laying;

// Whether both lengths are a page's.
fn two_pages(page: usize, out: usize) -> bool
    ensures { result ≡ (eqb page page_words && eqb out page_words) }
{
    (page == pages::PAGE_WORDS) & (out == pages::PAGE_WORDS)
}

// The two ways stay apart, as in C: they share the tests and the head, and one function of both would switch on the way.

// Fills out with page by columns: the head, then eight rows of sixteen words. A wrong length of either is refused.
pub fn to_columns(page: &[u32], out: &mut [u32]) -> Answer
    ensures value { result ≡ arrange_answer page.now out.old }
    ensures out_after { out.new ≡ arranged to_columns page.now out.old }
{
    if !two_pages(page.len(), out.len()) {
        return Err(Refusal::Malformed);
    }
    laying::put_head(page, out);
    let t = page_rows::rows::rows_of(page, 0);
    laying::put_columns(out, t);
    Ok(0)
}

// Fills out with the page of which page has the columns. A wrong length of either is refused.
pub fn from_columns(page: &[u32], out: &mut [u32]) -> Answer
    ensures value { result ≡ arrange_answer page.now out.old }
    ensures out_after { out.new ≡ arranged from_columns page.now out.old }
{
    if !two_pages(page.len(), out.len()) {
        return Err(Refusal::Malformed);
    }
    laying::put_head(page, out);
    let t = laying::slots_in(page);
    page_rows::rows::put_rows(out, 0, t);
    Ok(0)
}
