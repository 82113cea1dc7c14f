ghost use Rattle.std.specs.Prelude.{◌≡◌, ◌+◌, ◌*◌, ◌<◌, ◌≤◌, length};
ghost use Rattle.pages.specs.Geometry.{max_pages, is_object};
ghost use Rattle.areas.specs.Layout.{HasTables};
ghost use Rattle.areas.specs.Tables.{has, gain, lose, can_read, can_write, knows, pass_first, pass_end, may_mark, greyed};
ghost use Rattle.calls.specs.Transactions.{leaves};

use areas::layout;
use bit_ops::bits;
use pages::SLOTS;

// Whether t is in the mask at word i.
pub fn has(w: &[u32], i: usize, t: u32) -> bool
    requires { (i < length w.now) × (t < 32) }
    ensures { result ≡ has w.now i t }
{
    words::has_bit(w[i], t as usize)
}

// t enters the mask at word i.
pub fn gain(w: &mut [u32], i: usize, t: u32)
    requires { (i < length w.old) × (t < 32) }
    ensures { w.new ≡ gain w.old i t }
{
    w[i] = bits::with_bit(w[i], t as usize);
}

// t leaves the mask at word i.
pub fn lose(w: &mut [u32], i: usize, t: u32)
    requires { (i < length w.old) × (t < 32) }
    ensures { w.new ≡ lose w.old i t }
{
    w[i] = bits::without_bit(w[i], t as usize);
}

// t leaves each of the k masks from word a.
pub fn leave_all(w: &mut [u32], a: usize, k: usize, t: u32)
    requires { (a + k ≤ length w.old) × (t < 32) }
    ensures { w.new ≡ leaves t w.old a k }
{
    for mask in &mut w[a..a + k] {
        *mask = bits::without_bit(*mask, t as usize);
    }
}

// Whether t may read page p of n: under either lock.
pub fn can_read(w: &[u32], n: usize, t: u32, p: usize) -> bool
    requires { HasTables w.now n × (p < n) × (t < 32) }
    ensures { result ≡ can_read w.now n t p }
{
    has(w, layout::readers_at(n, p), t) | has(w, layout::writers_at(n, p), t)
}

// Whether t may write page p of n.
pub fn can_write(w: &[u32], n: usize, t: u32, p: usize) -> bool
    requires { HasTables w.now n × (p < n) × (t < 32) }
    ensures { result ≡ can_write w.now n t p }
{
    has(w, layout::writers_at(n, p), t)
}

// Whether o is an object of n pages.
pub fn is_object(n: usize, o: u32) -> bool
    requires { n ≤ max_pages }
    ensures { result ≡ is_object n o }
{
    (1 <= o) & (o <= (SLOTS * n) as u32)
}

// Whether t knows o; what is no object of n pages is never known.
pub fn knows(w: &[u32], n: usize, t: u32, o: u32) -> bool
    requires { HasTables w.now n × (t < 32) }
    ensures { result ≡ knows w.now n t o }
{
    if !is_object(n, o) {
        return false;
    }
    has(w, layout::known_at(n, o as usize), t)
}

// The first page of a pass: that of the store.
pub fn pass_first(w: &[u32], n: usize) -> usize
    ensures { result ≡ pass_first w.now n }
{
    0
}

// The page at which a pass ends: behind the last one of the store.
pub fn pass_end(w: &[u32], n: usize) -> usize
    ensures { result ≡ pass_end w.now n }
{
    n
}

// Whether the pass that runs may mark o: all objects of the store.
pub fn may_mark(w: &[u32], n: usize, o: u32) -> bool
    requires { n ≤ max_pages }
    ensures { result ≡ may_mark w.now n o }
{
    is_object(n, o)
}

// A white object that the pass may mark turns grey.
pub fn turn_grey(w: &mut [u32], n: usize, o: u32)
    requires { HasTables w.old n }
    ensures { w.new ≡ greyed w.old n o }
{
    if !may_mark(w, n, o) {
        return;
    }
    let i = layout::colour_at(n, o as usize);
    if w[i] == layout::WHITE {
        w[i] = layout::GREY;
    }
}
