// The objects of a page area: what is there, and their changes one object at a time.
ghost use Rattle.std.specs.Prelude.{◌≡◌, ◌+◌, ◌^◌, ◌<◌, ◌≤◌, length};
ghost use Rattle.pages.specs.Geometry.{slot_count, slot_words, page_words, page_at, page_of, is_ref};
ghost use Rattle.pages.specs.Objects.{occupied, word_of, cleared, taken_slot, freed_slot, occupy, release, written, released};
ghost use Rattle.page_laws.specs.BitLaws.{clear_bits};

use super::areas;
use bit_ops::bits;
use page_rows::rows;

// Whether object o is there.
pub fn occupied(a: &[u32], o: u32) -> bool
    requires { (1 ≤ o) × (page_at (page_of o) + page_words ≤ length a.now) }
    ensures { result ≡ occupied a.now o }
{
    let i = (o - 1) as usize;
    words::has_bit(a[pages::PAGE_WORDS * (i / pages::SLOTS)], i % pages::SLOTS)
}

// Whether word f of object o is a reference.
pub fn is_ref(a: &[u32], o: u32, f: u32) -> bool
    ensures { result ≡ is_ref a.now o f }
{
    (f as usize) < pages::REF_WORDS
}

// Word f of object o.
pub fn word_of(a: &[u32], o: u32, f: u32) -> u32
    requires { (1 ≤ o) × (f < slot_words) × (page_at (page_of o) + page_words ≤ length a.now) }
    ensures { result ≡ word_of a.now o f }
{
    let i = (o - 1) as usize;
    a[pages::slot_at(i / pages::SLOTS, i % pages::SLOTS, f as usize)]
}

// The words of slot s of page p become 0.
fn clear_slot(a: &mut [u32], p: usize, s: usize)
    requires { (s < slot_count) × (page_at p + page_words ≤ length a.old) }
    ensures { a.new ≡ cleared a.old p s }
{
    areas::clear_words(a, pages::slot_at(p, s, 0), pages::SLOT_WORDS);
}

// Slot s of page p becomes occupied, its words 0.
pub fn take_slot(a: &mut [u32], p: usize, s: usize)
    requires { (s < slot_count) × (page_at p + page_words ≤ length a.old) }
    ensures { a.new ≡ taken_slot a.old p s }
{
    a[pages::PAGE_WORDS * p] = bits::with_bit(a[pages::PAGE_WORDS * p], s);
    clear_slot(a, p, s);
}

// Slot s of page p becomes free, its words 0.
pub fn free_slot(a: &mut [u32], p: usize, s: usize)
    requires { (s < slot_count) × (page_at p + page_words ≤ length a.old) }
    ensures { a.new ≡ freed_slot a.old p s }
{
    a[pages::PAGE_WORDS * p] = bits::without_bit(a[pages::PAGE_WORDS * p], s);
    clear_slot(a, p, s);
}

// Object o becomes occupied, its words 0.
pub fn occupy(a: &mut [u32], o: u32)
    requires { (1 ≤ o) × (page_at (page_of o) + page_words ≤ length a.old) }
    ensures { a.new ≡ occupy a.old o }
{
    let i = (o - 1) as usize;
    take_slot(a, i / pages::SLOTS, i % pages::SLOTS);
}

// Object o becomes free, its words 0.
pub fn release(a: &mut [u32], o: u32)
    requires { (1 ≤ o) × (page_at (page_of o) + page_words ≤ length a.old) }
    ensures { a.new ≡ release a.old o }
{
    let i = (o - 1) as usize;
    free_slot(a, i / pages::SLOTS, i % pages::SLOTS);
}

// Word f of object o becomes v.
pub fn write_word(a: &mut [u32], o: u32, f: u32, v: u32)
    requires { (1 ≤ o) × (f < slot_words) × (page_at (page_of o) + page_words ≤ length a.old) }
    ensures { a.new ≡ written a.old o f v }
{
    let i = (o - 1) as usize;
    a[pages::slot_at(i / pages::SLOTS, i % pages::SLOTS, f as usize)] = v;
}

// The map w without the slots of m.
fn clear_bits(w: u32, m: u32) -> u32
    requires { m < 2 ^ slot_count }
    ensures { result ≡ clear_bits w m slot_count }
{
    (w | m) - m
}

// The slots of page p that the map m has become free, their words 0: the page's rows by value, and back.
pub fn release_slots(a: &mut [u32], p: usize, m: u32)
    requires { (m < 2 ^ slot_count) × (page_at p + page_words ≤ length a.old) }
    ensures { a.new ≡ released a.old p m }
{
    let t = rows::freed_rows(rows::rows_of(a, p), m);
    a[pages::PAGE_WORDS * p] = clear_bits(a[pages::PAGE_WORDS * p], m);
    rows::put_rows(a, p, t);
}
