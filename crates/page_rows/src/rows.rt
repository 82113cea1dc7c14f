ghost use Rattle.std.specs.Prelude.{◌≡◌, ◌+◌, ◌≤◌, length};
ghost use Rattle.std.proofs.Math.Seq.{paste};
ghost use Rattle.words.specs.Tests.{if};
ghost use Rattle.pages.specs.Geometry.{slot_count, slot_words, page_words, page_at};
ghost use Rattle.pages.specs.Table.{rows_of, with_rows};
ghost use Rattle.page_rows.specs.TableLaws.{words_from, zero_row, freed_rows};

// The words of a slot from b, by value, named one by one: made by `try_into`, a page by columns took twice the time and more.
pub(crate) fn words_from(a: &[u32], b: usize) -> [u32; pages::SLOT_WORDS]
    requires { b + slot_words ≤ length a.now }
    ensures { result ≡ words_from a.now b }
{
    [
        a[b],
        a[b + 1],
        a[b + 2],
        a[b + 3],
        a[b + 4],
        a[b + 5],
        a[b + 6],
        a[b + 7],
    ]
}

// The rows of page p, by value.
pub fn rows_of(a: &[u32], p: usize) -> [[u32; pages::SLOT_WORDS]; pages::SLOTS]
    requires { page_at p + page_words ≤ length a.now }
    ensures { result ≡ rows_of a.now p }
{
    let mut t = [[0u32; pages::SLOT_WORDS]; pages::SLOTS];
    for (s, row) in t.iter_mut().enumerate() {
        *row = words_from(a, pages::slot_at(p, s, 0));
    }
    t
}

// A row written from b, by value and word by word: by `copy_from_slice` of a part the compiled flush tests each row for overlap.
fn put_row(a: &mut [u32], b: usize, r: [u32; pages::SLOT_WORDS])
    requires { b + slot_words ≤ length a.old }
    ensures { a.new ≡ paste a.old b r slot_words }
{
    for f in 0..pages::SLOT_WORDS {
        a[b + f] = r[f];
    }
}

// A table written into page p, whose map stays.
pub fn put_rows(a: &mut [u32], p: usize, t: [[u32; pages::SLOT_WORDS]; pages::SLOTS])
    requires { page_at p + page_words ≤ length a.old }
    ensures { a.new ≡ with_rows a.old p t slot_count }
{
    for (s, row) in t.iter().enumerate() {
        put_row(a, pages::slot_at(p, s, 0), *row);
    }
}

// The row, or zeros where its slot is freed.
fn kept_row(r: [u32; pages::SLOT_WORDS], freed: bool) -> [u32; pages::SLOT_WORDS]
    ensures { result ≡ if freed zero_row r }
{
    if freed { [0u32; pages::SLOT_WORDS] } else { r }
}

// The table with the rows of the map m zero.
pub fn freed_rows(
    mut t: [[u32; pages::SLOT_WORDS]; pages::SLOTS],
    m: u32,
) -> [[u32; pages::SLOT_WORDS]; pages::SLOTS]
    ensures { result ≡ freed_rows t m }
{
    for (s, row) in t.iter_mut().enumerate() {
        *row = kept_row(*row, words::has_bit(m, s));
    }
    t
}
