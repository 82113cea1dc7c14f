ghost use Rattle.std.specs.Prelude.{◌≡◌, ◌≤◌};
ghost use Rattle.pages.specs.Geometry.{max_pages};
ghost use Rattle.records.specs.Soundness.{kind_sound, txn_sound, object_sound, field_sound, reference_sound, old_sound, new_sound, word_sound};

use crate::{REF_WORDS, ROOT_PAGE, ROOT_SLOT, SLOT_WORDS, SLOTS};
use records::Record;

// Word 0: a known kind.
fn kind_sound(r: Record) -> bool
    ensures { result ≡ kind_sound r }
{
    (records::BEGIN <= r.kind) & (r.kind <= records::SWEEP)
}

// Word 1: a transaction; a sweep has none.
fn txn_sound(r: Record) -> bool
    ensures { result ≡ txn_sound r }
{
    if r.kind == records::SWEEP {
        r.txn == 0
    } else {
        r.txn < records::TXNS
    }
}

// Word 2: an object that the record may name, a sweep's page, or unused.
fn object_sound(r: Record, n: usize) -> bool
    requires { n ≤ max_pages }
    ensures { result ≡ object_sound n r }
{
    if (r.kind == records::CREATE) | (r.kind == records::SET) | (r.kind == records::UNCREATE) {
        let there = (1 <= r.object) & (r.object <= SLOTS * (n as u32));
        return there & ((r.kind == records::SET) | (r.object != pages::ROOT));
    }
    if r.kind == records::SWEEP {
        r.object < n as u32
    } else {
        r.object == 0
    }
}

// Word 3: the word that a set writes, or unused.
fn field_sound(r: Record) -> bool
    ensures { result ≡ field_sound r }
{
    if r.kind == records::SET {
        r.field < SLOT_WORDS
    } else {
        r.field == 0
    }
}

// Whether v may stand in a set's word: data, or a reference to an object of n pages.
fn reference_sound(r: Record, n: usize, v: u32) -> bool
    requires { n ≤ max_pages }
    ensures { result ≡ reference_sound n r v }
{
    (REF_WORDS <= r.field) | (v <= SLOTS * (n as u32))
}

// Word 4: what a set overwrote, or unused.
fn old_sound(r: Record, n: usize) -> bool
    requires { n ≤ max_pages }
    ensures { result ≡ old_sound n r }
{
    if r.kind == records::SET {
        reference_sound(r, n, r.old)
    } else {
        r.old == 0
    }
}

// Word 5: what a set wrote, the slots that a sweep freed, the root not among them, or unused.
fn new_sound(r: Record, n: usize) -> bool
    requires { n ≤ max_pages }
    ensures { result ≡ new_sound n r }
{
    if r.kind == records::SET {
        return reference_sound(r, n, r.new);
    }
    if r.kind == records::SWEEP {
        return (r.new <= pages::MAP_TOP)
            & !((r.object == ROOT_PAGE) & words::has_bit(r.new, ROOT_SLOT));
    }
    r.new == 0
}

// Whether word w of a record is sound: by number, for the scan over records and their six words (docs/DECISIONS.md, 47).
pub fn word_sound(r: Record, n: usize, w: usize) -> bool
    requires { n ≤ max_pages }
    ensures { result ≡ word_sound n r w }
{
    match w {
        0 => kind_sound(r),
        1 => txn_sound(r),
        2 => object_sound(r, n),
        3 => field_sound(r),
        4 => old_sound(r, n),
        _ => new_sound(r, n),
    }
}
