ghost use Rattle.std.specs.Prelude.{◌≡◌, ◌+◌, ◌*◌, ◌≤◌, length};
ghost use Rattle.records.specs.Records.{record_words, recorded};
ghost use Rattle.records.specs.Effects as spec;
ghost use Rattle.record_ops.specs.InRange.{InRange};

use page_ops::change;
use records::{RECORD_WORDS, Record};

// Writes r as record i of a log.
pub fn put_record(log: &mut [u32], i: usize, r: Record)
    requires { record_words * i + record_words ≤ length log.old }
    ensures { log.new ≡ recorded log.old i r }
{
    log[RECORD_WORDS * i] = r.kind;
    log[RECORD_WORDS * i + 1] = r.txn;
    log[RECORD_WORDS * i + 2] = r.object;
    log[RECORD_WORDS * i + 3] = r.field;
    log[RECORD_WORDS * i + 4] = r.old;
    log[RECORD_WORDS * i + 5] = r.new;
}

// The record that undoes a create or a set.
pub fn undoing(r: Record) -> Record
    ensures { result ≡ spec.undoing r }
{
    if r.kind == records::CREATE {
        return records::uncreate_of(r.txn, r.object);
    }
    records::set_of(r.txn, r.object, r.field, r.new, r.old)
}

// What a record does to the pages: its kind decides.
pub fn apply(a: &mut [u32], r: Record)
    requires { InRange a.old r }
    ensures { a.new ≡ spec.effect a.old r }
{
    let kind = r.kind;
    match kind {
        records::BEGIN => {}
        records::CREATE => change::occupy(a, r.object),
        records::SET => change::write_word(a, r.object, r.field, r.new),
        records::COMMIT => {}
        records::ABORTED => {}
        records::UNCREATE => change::release(a, r.object),
        records::SWEEP => change::release_slots(a, r.object as usize, r.new),
        0 | 8..=0xffff_ffff => {}
    }
}

// What undoing a record does to the pages.
pub fn take_back(a: &mut [u32], r: Record)
    requires { InRange a.old r }
    ensures { a.new ≡ spec.undone a.old r }
{
    let kind = r.kind;
    match kind {
        records::CREATE => change::release(a, r.object),
        records::SET => change::write_word(a, r.object, r.field, r.old),
        records::UNCREATE => change::occupy(a, r.object),
        _ => {}
    }
}
