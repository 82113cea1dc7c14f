// Refusal 1's check of the log: each record is held to a row of four ranges, of its object, field, old and new word. A kind has a row,
// and a set of a data word has one of its own. No branch depends on a record, since kinds come in any order.
#![tactic(auto)]

ghost use Rattle.std.specs.Prelude.{◌≡◌, ◌*◌, ◌≤◌, ◌&&◌, length, ◌==◌};
ghost use Rattle.pages.specs.Geometry.{max_pages};
ghost use Rattle.records.specs.Records.{record_words};
ghost use Rattle.records.specs.Soundness.{records_sound};
ghost use Rattle.record_ranges.specs.Ranges as spec;

use bit_ops::bits;
use records::Record;

// The widths of a page, as words of a record are compared with them, and the page of the root.
const SLOTS: u32 = pages::SLOTS as u32;

const SLOT_WORDS: u32 = pages::SLOT_WORDS as u32;

const REF_WORDS: u32 = pages::REF_WORDS as u32;

const ROOT_PAGE: u32 = (pages::ROOT - 1) / SLOTS;

// A row for each kind and for none, KINDS in all; then the same for the field of a data word.
const KINDS: u32 = records::SWEEP + 1;

const ROWS: usize = 2 * KINDS as usize;

// The words of a record that a row has a range for.
const RANGES: usize = 4;

const ONES: u32 = 0xffff_ffff;

// The row of a record: its kind, and KINDS more where its field is that of a data word.
fn row_of(r: Record) -> usize
    ensures { result ≡ spec.row_of r }
{
    (r.kind % KINDS + KINDS * (r.field / REF_WORDS % 2)) as usize
}

// What a record of a row may have: its words from a least value up, each within a span, and a transaction without the barred bits.
#[derive(Clone, Copy)]
struct Row {
    low: [u32; RANGES],
    span: [u32; RANGES],
    barred: u32,
}

// The rows, of n pages. Rows 0 and 8 are no kind's: each wants a field that the row does not have.
fn rows(n: u32) -> [Row; ROWS]
    requires { (1 ≤ n) × (n ≤ max_pages) }
    ensures { result ≡ spec.rows n }
{
    let top = SLOTS * n;
    let end = Row {
        low: [0; RANGES],
        span: [0; RANGES],
        barred: ONES - (records::TXNS - 1),
    };
    let none = Row {
        low: [0, REF_WORDS, 0, 0],
        ..end
    };
    let make = Row {
        low: [pages::ROOT + 1, 0, 0, 0],
        span: [top - (pages::ROOT + 1), 0, 0, 0],
        ..end
    };
    let set = Row {
        low: [pages::ROOT, 0, 0, 0],
        span: [top - pages::ROOT, SLOT_WORDS - 1, top, top],
        ..end
    };
    let word = Row {
        span: [top - pages::ROOT, SLOT_WORDS - 1, ONES, ONES],
        ..set
    };
    let sweep = Row {
        span: [n - 1, 0, 0, pages::MAP_TOP],
        barred: ONES,
        ..end
    };
    [
        none, end, make, set, end, end, make, sweep, end, end, make, word, end, end, make, sweep,
    ]
}

// What was found before, and whether x lies outside its range.
fn outside(before: u32, x: u32, low: u32, span: u32) -> u32
    ensures { (result == 0) ≡ (before == 0) && spec.inside x low span }
{
    before | bits::above(std::num::wrapping_sub_u32(x, low), span)
}

// What was found before, a transaction out of range, and a first slot freed where the object is 0, the page of the root.
fn strays(before: u32, r: Record, barred: u32) -> u32
    ensures { (result == 0) ≡ (before == 0) && spec.strayless r barred }
{
    before | (r.txn & barred) | (r.new & ((r.object == ROOT_PAGE) as u32))
}

// Whether each of the first c records is sound by itself.
pub fn records_sound(log: &[u32], n: usize, c: usize) -> bool
    requires { (record_words * c ≤ length log.now) × (1 ≤ n) × (n ≤ max_pages) }
    ensures { result ≡ records_sound n log.now c }
{
    let rows = rows(n as u32);
    let mut f0: u32 = 0;
    let mut f1: u32 = 0;
    let mut f2: u32 = 0;
    let mut f3: u32 = 0;
    let mut f4: u32 = 0;
    let mut kinds: u32 = 0;
    for i in 0..c {
        let r = log_reader::record_at(log, i);
        let row = &rows[row_of(r)];
        f0 = outside(f0, r.object, row.low[0], row.span[0]);
        f1 = outside(f1, r.field, row.low[1], row.span[1]);
        f2 = outside(f2, r.old, row.low[2], row.span[2]);
        f3 = outside(f3, r.new, row.low[3], row.span[3]);
        f4 = strays(f4, r, row.barred);
        kinds = kinds | r.kind;
    }
    (kinds < KINDS) & ((f0 | f1 | f2 | f3 | f4) == 0)
}
