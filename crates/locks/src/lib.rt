// What locks for reading and for writing a page test and change.
#![tactic(auto)]

ghost use Rattle.std.specs.Prelude.{◌≡◌, ◌<◌, length};
ghost use Rattle.words.specs.Tests.{lowest};
ghost use Rattle.words.specs.Bits.{bit, without_bit};
ghost use Rattle.records.specs.Records.{txn_count};
ghost use Rattle.areas.specs.Answers.{verdict};
ghost use Rattle.areas.specs.Layout.{HasTables, HasUndoing};
ghost use Rattle.areas.specs.Tables.{at};
ghost use Rattle.calls.specs.Locks.{read_locked, write_locked};
ghost use Rattle.locks.specs.Checks.{ClientsIn, right_for, way_to, lock_tests};

use areas::{Check, Refusal, layout};
use bit_ops::bits;
use records::TXNS;

// The mask at word i without t.
fn others(w: &[u32], i: usize, t: u32) -> u32
    requires { (i < length w.now) × (t < 32) }
    ensures { result ≡ without_bit (at w.now i) t }
{
    bits::without_bit(w[i], t as usize)
}

// The lowest transaction of mask m, or their number: a bit above them all ends the search there.
fn lowest_of(m: u32) -> u32
    ensures { result ≡ lowest (bit m) txn_count }
{
    u32::trailing_zeros(bits::with_bit(m, TXNS as usize))
}

// Who bars the way to t's lock on page p of n, the lowest of them: no other may write it, nor read it where t wants to write.
fn way_to(w: &[u32], n: usize, t: u32, p: usize, writing: bool) -> Option<u32>
    requires { HasTables w.now n × (p < n) × (t < 32) }
    ensures { result ≡ way_to w.now n t p writing }
{
    let readers = others(w, layout::readers_at(n, p), t);
    let writers = others(w, layout::writers_at(n, p), t);
    if (writers == 0) & (!writing | (readers == 0)) {
        None
    } else {
        Some(lowest_of(readers | writers))
    }
}

// The right that a lock needs.
fn right_for(writing: bool) -> u32
    ensures { result ≡ right_for writing }
{
    if writing {
        layout::WRITING
    } else {
        layout::READING
    }
}

// Refusals 3, 4, 19 and 6 of a lock.
pub fn lock_check(w: &[u32], n: usize, t: u32, p: u32, writing: bool) -> Check
    requires { HasUndoing w.now n 0 × ClientsIn w.now n }
    ensures { result ≡ verdict (lock_tests w.now n t p writing) }
{
    let page = p as usize;
    if !((t < TXNS) & (page < n)) {
        return Err(Refusal::OutOfRange);
    }
    if !store_ops::has(w, layout::ACTIVE_AT, t) {
        return Err(Refusal::WrongState);
    }
    if !rights::may_lock(w, n, t, page, right_for(writing)) {
        return Err(Refusal::RightMissing);
    }
    match way_to(w, n, t, page, writing) {
        None => Ok(()),
        Some(h) => Err(Refusal::Held(h)),
    }
}

// t becomes a reader of page p; a writer stays the writer.
pub fn let_read(w: &mut [u32], n: usize, t: u32, p: usize)
    requires { HasTables w.old n × (p < n) × (t < 32) }
    ensures { w.new ≡ read_locked w.old n t p }
{
    if !store_ops::can_write(w, n, t, p) {
        store_ops::gain(w, layout::readers_at(n, p), t);
    }
}

// t becomes the writer of page p, and no longer its reader.
pub fn let_write(w: &mut [u32], n: usize, t: u32, p: usize)
    requires { HasTables w.old n × (p < n) × (t < 32) }
    ensures { w.new ≡ write_locked w.old n t p }
{
    store_ops::lose(w, layout::readers_at(n, p), t);
    store_ops::gain(w, layout::writers_at(n, p), t);
}
