ghost use Rattle.std.specs.Prelude.{◌≡◌, ◌+◌, ◌≤◌, length};
ghost use Rattle.words.specs.Spans.{same};
ghost use Rattle.pages.specs.Geometry.{page_at, page_words};
ghost use Rattle.pages.specs.Objects.{copied_page};

// Page p of one area, written into another. A loop: `copy_from_slice` would have the library for C ask for `memmove` from outside.
pub fn copy_page(from: &[u32], to: &mut [u32], p: usize)
    requires { (page_at p + page_words ≤ length from.now) × (page_at p + page_words ≤ length to.old) }
    ensures { to.new ≡ copied_page from.now to.old p }
{
    let b = pages::PAGE_WORDS * p;
    for (i, word) in to[b..b + pages::PAGE_WORDS].iter_mut().enumerate() {
        *word = from[b + i];
    }
}

// Whether an area is the beginning of another, which is no shorter.
pub fn areas_agree(a: &[u32], b: &[u32]) -> bool
    requires { length a.now ≤ length b.now }
    ensures { result ≡ same a.now 0 b.now 0 (length a.now) }
{
    let mut ok = true;
    for i in 0..a.len() {
        ok = ok & (a[i] == b[i]);
    }
    ok
}
