// The rights of clients: whether a transaction's is enough for a lock, and what a change of one tests and changes.
#![tactic(auto)]

ghost use Rattle.std.specs.Prelude.{◌≡◌, [], ◌<◌};
ghost use Rattle.records.specs.Records.{txn_count};
ghost use Rattle.areas.specs.Answers.{verdict};
ghost use Rattle.areas.specs.Areas.{areas};
ghost use Rattle.areas.specs.Layout.{HasUndoing, client_count, right_at};
ghost use Rattle.areas.specs.Tables.{at};
ghost use Rattle.calls.specs.Rights.{client_of, may_lock, has_active, grant_tests, right_given};

use areas::{Check, Refusal, layout};
use records::TXNS;

// As whom t began.
fn client_of(w: &[u32], n: usize, t: u32) -> u32
    requires { HasUndoing w.now n 0 × (t < txn_count) }
    ensures { result ≡ client_of w.now n t }
{
    w[layout::client_at(n, t as usize)]
}

// The right of client c on page p.
fn right_of(w: &[u32], n: usize, c: u32, p: usize) -> u32
    requires { HasUndoing w.now n 0 × (c < client_count) × (p < n) }
    ensures { result ≡ at w.now (right_at n c p) }
{
    w[layout::right_at(n, c as usize, p)]
}

// Whether the right of t's client on page p is enough.
pub fn may_lock(w: &[u32], n: usize, t: u32, p: usize, right: u32) -> bool
    requires { HasUndoing w.now n 0 × (t < txn_count) × (p < n) × (client_of w.now n t < client_count) }
    ensures { result ≡ may_lock w.now n t p right }
{
    let c = client_of(w, n, t);
    right <= right_of(w, n, c, p)
}

// Whether some active transaction is client c's.
fn has_active(w: &[u32], n: usize, c: u32) -> bool
    requires { HasUndoing w.now n 0 }
    ensures { result ≡ has_active w.now n c }
{
    let mut found = false;
    for t in 0..TXNS {
        found = found | (store_ops::has(w, layout::ACTIVE_AT, t) & (client_of(w, n, t) == c));
    }
    found
}

// Refusals 3 and 4 of a change of a right.
pub fn grant_check(w: &[u32], n: usize, c: u32, p: u32, r: u32) -> Check
    requires { HasUndoing w.now n 0 }
    ensures { result ≡ verdict (grant_tests (areas [] [] [] [] [] w.now) n c p r) }
{
    let page = p as usize;
    if !((c < layout::CLIENTS) & (page < n) & (r <= layout::WRITING)) {
        return Err(Refusal::OutOfRange);
    }
    if has_active(w, n, c) {
        Err(Refusal::WrongState)
    } else {
        Ok(())
    }
}

// Client c gets the right r on page p.
pub fn grant_apply(w: &mut [u32], n: usize, c: u32, p: usize, r: u32)
    requires { HasUndoing w.old n 0 × (c < client_count) × (p < n) }
    ensures { w.new ≡ right_given w.old n c p r }
{
    w[layout::right_at(n, c as usize, p)] = r;
}
