ghost use Rattle.std.specs.Prelude.{◌≡◌, true, false, ◌*◌, ◌≤◌, length};
ghost use Rattle.pages.specs.Geometry.{max_pages};
ghost use Rattle.records.specs.Records.{record_words, max_records, is_sweep};
ghost use Rattle.records.specs.Soundness.{records_sound};
ghost use Rattle.records.specs.Naming.{names_page, page_named};
ghost use Rattle.record_ops.specs.Naming.{NamedPast};

use pages::MAX_PAGES;
use records::Record;

// Whether a record names a page.
pub fn names_page(r: Record) -> bool
    ensures { result ≡ names_page r }
{
    (r.kind == records::CREATE)
        | (r.kind == records::SET)
        | (r.kind == records::UNCREATE)
        | (r.kind == records::SWEEP)
}

// The page that a record names.
pub fn page_named(r: Record) -> usize
    requires { is_sweep r ≡ false → 1 ≤ r.object }
    ensures { result ≡ page_named r }
{
    if r.kind == records::SWEEP {
        return r.object as usize;
    }
    (r.object as usize - 1) / pages::SLOTS
}

// By page, the number, from 1, of the last of the first c records that names it, where it is past the first a; else 0.
pub fn last_naming(log: &[u32], a: usize, c: usize) -> [u32; MAX_PAGES]
    requires { (a ≤ c) × (record_words * c ≤ length log.now) × (c ≤ max_records) × (records_sound max_pages log.now c ≡ true) }
    ensures { NamedPast log.now a c result }
{
    let mut last = [0u32; MAX_PAGES];
    for i in a..c {
        let r = log_reader::record_at(log, i);
        if names_page(r) {
            let p = page_named(r);
            last[p] = i as u32 + 1;
        }
    }
    last
}
