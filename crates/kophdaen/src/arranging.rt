// The calls that arrange a page by columns, and back, as C functions over two pages.
ghost use Rattle.std.specs.Prelude.{◌≡◌};
ghost use Rattle.columns.specs.Columns.{to_columns, from_columns};
ghost use Rattle.columns.specs.ColumnCalls.{arrange_answer, arranged};
ghost use Rattle.codes.specs.Codes.{coded};

use codes::code;

// Fills out with page by columns.
#[unsafe(no_mangle)]
pub extern "C" fn kophdaen_to_columns(page: &[u32], out: &mut [u32]) -> u64
    ensures value { result ≡ coded (arrange_answer page.now out.old) }
    ensures out_after { out.new ≡ arranged to_columns page.now out.old }
{
    let a = page_columns::to_columns(page, out);
    code(a)
}

// Fills out with the page of which page has the columns.
#[unsafe(no_mangle)]
pub extern "C" fn kophdaen_from_columns(page: &[u32], out: &mut [u32]) -> u64
    ensures value { result ≡ coded (arrange_answer page.now out.old) }
    ensures out_after { out.new ≡ arranged from_columns page.now out.old }
{
    let a = page_columns::from_columns(page, out);
    code(a)
}
