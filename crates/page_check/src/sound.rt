// The soundness of pages.
ghost use Rattle.std.specs.Prelude.{◌≡◌, Bool, ◌&&◌, ◌+◌, ◌*◌, ◌<◌, ◌≤◌, length, eqb};
ghost use Rattle.words.specs.Tests.{all};
ghost use Rattle.pages.specs.Geometry.{max_pages, slot_count, page_words, page_at};
ghost use Rattle.pages.specs.Soundness.{free_zero, page_sound, area_sound};
ghost use Rattle.page_check.specs.SoundLaws.{free_bits, column_sound, slot_sound};

use bit_ops::bits;

// The faults found before, and those of the reference at i and the data word at j of one slot: the reference is above top, or one
// of the two is not 0 where free has all bits. (It has none for an occupied slot.)
fn faults(before: u32, a: &[u32], i: usize, j: usize, free: u32, top: u32) -> u32
    requires { (i < length a.now) × (j < length a.now) }
    ensures { (t : Bool) → free ≡ free_bits t → eqb result 0 ≡ eqb before 0 && column_sound a.now i j t top }
{
    before | ((a[i] | a[j]) & free) | bits::above(a[i], top)
}

// The faults of the slots of page p, 0 where there are none: a reference above top, or a free slot that is not zero. A column for each
// reference and the data word that stands as far from the first, so that it goes four words at a time, with no branch for a slot.
fn slot_faults(a: &[u32], p: usize, top: u32) -> u32
    requires { page_at p + page_words ≤ length a.now }
    ensures { eqb result 0 ≡ all (slot_sound a.now top p) slot_count }
{
    let map = a[pages::PAGE_WORDS * p];
    let ones = bits::ALL_ONES;
    let free = [ones, ones, ones, ones, 0, 0, 0, 0];
    let mut f0: u32 = 0;
    let mut f1: u32 = 0;
    let mut f2: u32 = 0;
    let mut f3: u32 = 0;
    for s in 0..pages::SLOTS {
        let b = pages::slot_at(p, s, 0);
        let d = b + pages::REF_WORDS;
        let m = pages::REF_WORDS * ((map >> s) % 2) as usize;
        f0 = faults(f0, a, b, d, free[m], top);
        f1 = faults(f1, a, b + 1, d + 1, free[m + 1], top);
        f2 = faults(f2, a, b + 2, d + 2, free[m + 2], top);
        f3 = faults(f3, a, b + 3, d + 3, free[m + 3], top);
    }
    f0 | f1 | f2 | f3
}

// Whether page p of n is sound.
pub fn page_sound(a: &[u32], n: usize, p: usize) -> bool
    requires { (n ≤ max_pages) × (page_at p + page_words ≤ length a.now) }
    ensures { result ≡ page_sound a.now n p }
{
    (a[pages::PAGE_WORDS * p] <= pages::MAP_TOP)
        & (slot_faults(a, p, (pages::SLOTS * n) as u32) == 0)
}

// Whether a page area of n pages is sound.
pub fn area_sound(a: &[u32], n: usize) -> bool
    requires { (1 ≤ n) × (n ≤ max_pages) × (page_words * n ≤ length a.now) }
    ensures { result ≡ area_sound a.now n }
{
    (0..n).all(|p| page_sound(a, n, p)) && words::has_bit(a[0], 0)
}

// Whether the free slots of page p are zero: no reference is above the largest word.
pub fn free_zero(a: &[u32], p: usize) -> bool
    requires { page_at p + page_words ≤ length a.now }
    ensures { result ≡ free_zero a.now p }
{
    slot_faults(a, p, bits::ALL_ONES) == 0
}

// The same of every page.
pub fn pages_free_zero(a: &[u32], n: usize) -> bool
    requires { page_words * n ≤ length a.now }
    ensures { result ≡ all (free_zero a.now) n }
{
    (0..n).all(|p| free_zero(a, p))
}
