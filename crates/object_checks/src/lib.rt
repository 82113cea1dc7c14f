// What a read, a create, a set and a flush test, behind refusals 1 and 2.
#![tactic(auto)]

ghost use Rattle.std.specs.Prelude.{◌≡◌, ◌&&◌, [], ◌*◌, ◌<◌, ◌≤◌, length, get_or, ltb};
ghost use Rattle.pages.specs.Geometry.{page_words, max_pages, is_object};
ghost use Rattle.records.specs.Records.{txn_count};
ghost use Rattle.areas.specs.Answers.{verdict};
ghost use Rattle.areas.specs.Areas.{areas};
ghost use Rattle.areas.specs.Layout.{HasTables, HasUndoing};
ghost use Rattle.areas.specs.Tables.{is_txn};
ghost use Rattle.calls.specs.Objects.{may_write, names_itself, read_tests, create_tests, set_tests, flush_tests};
ghost use Rattle.log_ops.specs.Logs.{Kept};

use areas::{Check, Refusal, layout};
use page_ops::change;
use page_rows::images;
use pages::{SLOT_WORDS, SLOTS};
use records::TXNS;

// Whether transaction and object are in range.
fn in_range(n: usize, t: u32, o: u32) -> bool
    requires { n ≤ max_pages }
    ensures { result ≡ (is_txn t && is_object n o) }
{
    (t < TXNS) & store_ops::is_object(n, o)
}

// Whether transaction and page are in range.
fn page_in_range(n: usize, t: u32, p: u32) -> bool
    ensures { result ≡ (is_txn t && ltb p n) }
{
    (t < TXNS) & ((p as usize) < n)
}

// Whether t may write v into word f of object o: a reference must be 0 or known.
fn may_write(received: &[u32], work: &[u32], n: usize, t: u32, o: u32, f: u32, v: u32) -> bool
    requires { HasTables work.now n × (t < txn_count) }
    ensures { result ≡ may_write (areas [] [] received.now [] [] work.now) n t o f v }
{
    !change::is_ref(received, o, f) | (v == 0) | store_ops::knows(work, n, t, v)
}

// Whether v, written into word f of object o, is a reference to o itself.
fn names_itself(received: &[u32], o: u32, f: u32, v: u32) -> bool
    ensures { result ≡ names_itself received.now o f v }
{
    change::is_ref(received, o, f) & (v == o)
}

// Whether t may read object o.
pub fn read_check(work: &[u32], n: usize, t: u32, o: u32) -> Check
    requires { HasTables work.now n }
    ensures { result ≡ verdict (read_tests (areas [] [] [] [] [] work.now) n t o) }
{
    if !in_range(n, t, o) {
        return Err(Refusal::OutOfRange);
    }
    if !store_ops::has(work, layout::ACTIVE_AT, t) {
        return Err(Refusal::WrongState);
    }
    if !store_ops::can_read(work, n, t, (o as usize - 1) / SLOTS) {
        return Err(Refusal::NotLocked);
    }
    if !store_ops::knows(work, n, t, o) {
        return Err(Refusal::Unknown);
    }
    Ok(())
}

// Whether t may create object o.
pub fn create_check(
    received: &[u32],
    log: &[u32],
    counts: &[u32],
    work: &[u32],
    n: usize,
    t: u32,
    o: u32,
) -> Check
    requires n_in_bounds { (page_words * n ≤ length received.now) × HasUndoing work.now n (get_or counts.now 0 0) }
    requires kept { Kept log.now counts.now }
    ensures { result ≡ verdict (create_tests (areas [] [] received.now log.now counts.now work.now) n t o) }
{
    if !in_range(n, t, o) {
        return Err(Refusal::OutOfRange);
    }
    if !store_ops::has(work, layout::ACTIVE_AT, t) {
        return Err(Refusal::WrongState);
    }
    if !store_ops::can_write(work, n, t, (o as usize - 1) / SLOTS) {
        return Err(Refusal::NotLocked);
    }
    if change::occupied(received, o) {
        return Err(Refusal::Occupied);
    }
    if !log_ops::room_beyond(log, counts, work, n, log_ops::CHANGE_ROOM) {
        return Err(Refusal::LogFull);
    }
    Ok(())
}

// Whether t may set word f of object o to v.
pub fn set_check(
    received: &[u32],
    log: &[u32],
    counts: &[u32],
    work: &[u32],
    n: usize,
    t: u32,
    o: u32,
    f: u32,
    v: u32,
) -> Check
    requires has_undoing { HasUndoing work.now n (get_or counts.now 0 0) }
    requires kept { Kept log.now counts.now }
    ensures { result ≡ verdict (set_tests (areas [] [] received.now log.now counts.now work.now) n t o f v) }
{
    if !(in_range(n, t, o) & ((f as usize) < SLOT_WORDS)) {
        return Err(Refusal::OutOfRange);
    }
    if !store_ops::has(work, layout::ACTIVE_AT, t) {
        return Err(Refusal::WrongState);
    }
    if !store_ops::can_write(work, n, t, (o as usize - 1) / SLOTS) {
        return Err(Refusal::NotLocked);
    }
    if !(store_ops::knows(work, n, t, o) & may_write(received, work, n, t, o, f, v)) {
        return Err(Refusal::Unknown);
    }
    if names_itself(received, o, f, v) {
        return Err(Refusal::SelfReference);
    }
    if !log_ops::room_beyond(log, counts, work, n, log_ops::CHANGE_ROOM) {
        return Err(Refusal::LogFull);
    }
    Ok(())
}

// Whether t may flush page p, of which it sends an image.
pub fn flush_check(received: &[u32], work: &[u32], image: &[u32], n: usize, t: u32, p: u32) -> Check
    requires { (page_words * n ≤ length received.now) × HasTables work.now n × (page_words ≤ length image.now) }
    ensures { result ≡ verdict (flush_tests (areas [] [] received.now [] [] work.now) n t p image.now) }
{
    if !page_in_range(n, t, p) {
        return Err(Refusal::OutOfRange);
    }
    if !store_ops::has(work, layout::ACTIVE_AT, t) {
        return Err(Refusal::WrongState);
    }
    if !store_ops::can_write(work, n, t, p as usize) {
        return Err(Refusal::NotLocked);
    }
    if !images::page_agrees(image, received, p as usize) {
        return Err(Refusal::Differs);
    }
    Ok(())
}
