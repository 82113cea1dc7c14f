ghost use Rattle.std.specs.Prelude.{◌≡◌, ◌+◌, ◌<◌, ◌≤◌, length};
ghost use Rattle.pages.specs.Geometry.{slot_count, page_words, page_at};
ghost use Rattle.pages.specs.Images.{slot_agrees, agrees};

use super::rows;

// Whether slot s of an image has the words of slot s of page p.
fn slot_agrees(image: &[u32], a: &[u32], p: usize, s: usize) -> bool
    requires { (page_words ≤ length image.now) × (page_at p + page_words ≤ length a.now) × (s < slot_count) }
    ensures { result ≡ slot_agrees image.now a.now p s }
{
    let i = pages::slot_at(0, s, 0);
    let b = pages::slot_at(p, s, 0);
    rows::words_from(image, i) == rows::words_from(a, b)
}

// Whether an image agrees with page p: in each slot that is occupied in the page.
pub fn page_agrees(image: &[u32], a: &[u32], p: usize) -> bool
    requires { (page_words ≤ length image.now) × (page_at p + page_words ≤ length a.now) }
    ensures { result ≡ agrees image.now a.now p }
{
    let m = a[pages::PAGE_WORDS * p];
    let mut ok = true;
    for s in 0..pages::SLOTS {
        ok = ok & (!words::has_bit(m, s) | slot_agrees(image, a, p, s));
    }
    ok
}
