// A page's table by columns: written as eight rows of sixteen words, and read from them. It is the sixteen rows of eight words by value.
ghost use Rattle.std.specs.Prelude.{◌≡◌, [], ◌+◌, ◌<◌, ◌≤◌, length, get_or};
ghost use Rattle.std.proofs.Math.Seq.{paste};
ghost use Rattle.words.specs.Spans.{copied};
ghost use Rattle.pages.specs.Geometry.{slot_count, slot_words, head_words, page_words};
ghost use Rattle.pages.specs.Table.{tabulate};
ghost use Rattle.columns.specs.Columns.{laid_out, columns_of, column_at, slots_in};

// What precedes the rows, written into another page.
pub fn put_head(page: &[u32], out: &mut [u32])
    requires { (page_words ≤ length page.now) × (page_words ≤ length out.old) }
    ensures { out.new ≡ copied page.now out.old 0 head_words }
{
    out[..pages::HEAD_WORDS].copy_from_slice(&page[..pages::HEAD_WORDS]);
}

// Where place s of row w stands.
fn column_at(w: usize, s: usize) -> usize
    requires { (w < slot_words) × (s < slot_count) }
    ensures { result ≡ column_at w s }
{
    pages::HEAD_WORDS + pages::SLOTS * w + s
}

// Word w of each slot of a table, written from b.
fn put_column(out: &mut [u32], b: usize, t: [[u32; pages::SLOT_WORDS]; pages::SLOTS], w: usize)
    requires { (b + slot_count ≤ length out.old) × (w < slot_words) }
    ensures { out.new ≡ paste out.old b (get_or (columns_of t) w []) slot_count }
{
    for s in 0..pages::SLOTS {
        out[b + s] = t[s][w];
    }
}

// The columns of a table written into a page, whose head stays.
pub fn put_columns(out: &mut [u32], t: [[u32; pages::SLOT_WORDS]; pages::SLOTS])
    requires { length out.old ≡ page_words }
    ensures { out.new ≡ laid_out out.old (columns_of t) }
{
    for w in 0..pages::SLOT_WORDS {
        put_column(out, column_at(w, 0), t, w);
    }
}

// Place s of each column of a page that is by columns: the words of slot s.
fn slot_in(page: &[u32], s: usize) -> [u32; pages::SLOT_WORDS]
    requires { (s < slot_count) × (page_words ≤ length page.now) }
    ensures { result ≡ tabulate (λ w. get_or page.now (column_at w s) 0) slot_words }
{
    let mut r = [0u32; pages::SLOT_WORDS];
    for (w, word) in r.iter_mut().enumerate() {
        *word = page[column_at(w, s)];
    }
    r
}

// The slots of a page that is by columns, by value.
pub fn slots_in(page: &[u32]) -> [[u32; pages::SLOT_WORDS]; pages::SLOTS]
    requires { page_words ≤ length page.now }
    ensures { result ≡ slots_in page.now }
{
    let mut t = [[0u32; pages::SLOT_WORDS]; pages::SLOTS];
    for (s, row) in t.iter_mut().enumerate() {
        *row = slot_in(page, s);
    }
    t
}
