// The calls as C functions on a store that is known to be well formed: refusal 1 is not looked for. Each ensures what its namesake
// without `held_` ensures; they are twins since C has a name for each.
ghost use Rattle.std.specs.Prelude.{◌≡◌, true, length, eqb};
ghost use Rattle.pages.specs.Geometry.{page_words, slot_words};
ghost use Rattle.areas.specs.Areas.{areas};
ghost use Rattle.areas.specs.Entry.{well_formed};
ghost use Rattle.calls.specs.Transactions.{call_begin, call_commit, call_abort};
ghost use Rattle.calls.specs.Rights.{call_grant};
ghost use Rattle.calls.specs.Locks.{call_lock_read, call_lock_write};
ghost use Rattle.calls.specs.Objects.{call_read, call_create, call_set, call_flush, buffer_after};
ghost use Rattle.calls.specs.Stability.{call_force, call_store, call_empty};
ghost use Rattle.calls.specs.Pass.{call_pass, call_step};
ghost use Rattle.calls.specs.Reopening.{call_restep};
ghost use Rattle.calls.specs.Marks.{call_mark, call_back};
ghost use Rattle.calls.specs.Chains.{chain_words, call_chain, chain_after};
ghost use Rattle.calls.specs.PassShares.{share_words, call_pass_share, pass_share_after};
ghost use Rattle.codes.specs.Codes.{coded};

use codes::code;

// Begins transaction t as the client.
#[unsafe(no_mangle)]
#[tactic(auto, using(codes::specs::Codes::told))]
pub extern "C" fn kophdaen_held_begin(
    stored: &[u32],
    copies: &[u32],
    received: &mut [u32],
    log: &mut [u32],
    counts: &mut [u32],
    work: &mut [u32],
    t: u32,
    client: u32,
) -> u64
    requires { well_formed true (areas stored.now copies.now received.old log.old counts.old work.old) ≡ true }
    ensures value { result ≡ coded (call_begin (areas stored.now copies.now received.old log.old counts.old work.old) t client).answer }
    ensures work_after { areas stored.now copies.now received.new log.new counts.new work.new ≡ (call_begin (areas stored.now copies.now received.old log.old counts.old work.old) t client).after }
{
    let a = transaction_calls::held_begin(stored, copies, received, log, counts, work, t, client);
    code(a)
}

// Commits transaction t.
#[unsafe(no_mangle)]
#[tactic(auto, using(codes::specs::Codes::told))]
pub extern "C" fn kophdaen_held_commit(
    stored: &[u32],
    copies: &[u32],
    received: &mut [u32],
    log: &mut [u32],
    counts: &mut [u32],
    work: &mut [u32],
    t: u32,
) -> u64
    requires { well_formed true (areas stored.now copies.now received.old log.old counts.old work.old) ≡ true }
    ensures value { result ≡ coded (call_commit (areas stored.now copies.now received.old log.old counts.old work.old) t).answer }
    ensures work_after { areas stored.now copies.now received.new log.new counts.new work.new ≡ (call_commit (areas stored.now copies.now received.old log.old counts.old work.old) t).after }
{
    let a = transaction_calls::held_commit(stored, copies, received, log, counts, work, t);
    code(a)
}

// Aborts transaction t.
#[unsafe(no_mangle)]
#[tactic(auto, using(codes::specs::Codes::told))]
pub extern "C" fn kophdaen_held_abort(
    stored: &[u32],
    copies: &mut [u32],
    received: &mut [u32],
    log: &mut [u32],
    counts: &mut [u32],
    work: &mut [u32],
    t: u32,
) -> u64
    requires { well_formed true (areas stored.now copies.old received.old log.old counts.old work.old) ≡ true }
    ensures value { result ≡ coded (call_abort (areas stored.now copies.old received.old log.old counts.old work.old) t).answer }
    ensures work_after { areas stored.now copies.new received.new log.new counts.new work.new ≡ (call_abort (areas stored.now copies.old received.old log.old counts.old work.old) t).after }
{
    let a = transaction_calls::held_abort(stored, copies, received, log, counts, work, t);
    code(a)
}

// Gives client c the right r on page p: 0 nothing, 1 reading, 2 reading and writing.
#[unsafe(no_mangle)]
#[tactic(auto, using(codes::specs::Codes::told))]
pub extern "C" fn kophdaen_held_grant(
    stored: &[u32],
    copies: &[u32],
    received: &[u32],
    log: &[u32],
    counts: &[u32],
    work: &mut [u32],
    c: u32,
    p: u32,
    r: u32,
) -> u64
    requires { well_formed true (areas stored.now copies.now received.now log.now counts.now work.old) ≡ true }
    ensures value { result ≡ coded (call_grant (areas stored.now copies.now received.now log.now counts.now work.old) c p r).answer }
    ensures work_after { areas stored.now copies.now received.now log.now counts.now work.new ≡ (call_grant (areas stored.now copies.now received.now log.now counts.now work.old) c p r).after }
{
    let a = right_calls::held_grant(stored, copies, received, log, counts, work, c, p, r);
    code(a)
}

// Locks page p for reading.
#[unsafe(no_mangle)]
#[tactic(auto, using(codes::specs::Codes::told))]
pub extern "C" fn kophdaen_held_lock_read(
    stored: &[u32],
    copies: &[u32],
    received: &[u32],
    log: &[u32],
    counts: &[u32],
    work: &mut [u32],
    t: u32,
    p: u32,
) -> u64
    requires { well_formed true (areas stored.now copies.now received.now log.now counts.now work.old) ≡ true }
    ensures value { result ≡ coded (call_lock_read (areas stored.now copies.now received.now log.now counts.now work.old) t p).answer }
    ensures work_after { areas stored.now copies.now received.now log.now counts.now work.new ≡ (call_lock_read (areas stored.now copies.now received.now log.now counts.now work.old) t p).after }
{
    let a = lock_calls::held_lock_read(stored, copies, received, log, counts, work, t, p);
    code(a)
}

// Locks page p for writing.
#[unsafe(no_mangle)]
#[tactic(auto, using(codes::specs::Codes::told))]
pub extern "C" fn kophdaen_held_lock_write(
    stored: &[u32],
    copies: &[u32],
    received: &[u32],
    log: &[u32],
    counts: &[u32],
    work: &mut [u32],
    t: u32,
    p: u32,
) -> u64
    requires { well_formed true (areas stored.now copies.now received.now log.now counts.now work.old) ≡ true }
    ensures value { result ≡ coded (call_lock_write (areas stored.now copies.now received.now log.now counts.now work.old) t p).answer }
    ensures work_after { areas stored.now copies.now received.now log.now counts.now work.new ≡ (call_lock_write (areas stored.now copies.now received.now log.now counts.now work.old) t p).after }
{
    let a = lock_calls::held_lock_write(stored, copies, received, log, counts, work, t, p);
    code(a)
}

// Puts object o's eight words into the buffer.
#[unsafe(no_mangle)]
pub extern "C" fn kophdaen_held_read(
    stored: &[u32],
    copies: &[u32],
    received: &[u32],
    log: &[u32],
    counts: &[u32],
    work: &mut [u32],
    buffer: &mut [u32],
    t: u32,
    o: u32,
) -> u64
    requires { well_formed (eqb (length buffer.old) slot_words) (areas stored.now copies.now received.now log.now counts.now work.old) ≡ true }
    ensures value { result ≡ coded (call_read (areas stored.now copies.now received.now log.now counts.now work.old) t o buffer.old).answer }
    ensures work_after { areas stored.now copies.now received.now log.now counts.now work.new ≡ (call_read (areas stored.now copies.now received.now log.now counts.now work.old) t o buffer.old).after }
    ensures buffer_after { buffer.new ≡ buffer_after (areas stored.now copies.now received.now log.now counts.now work.old) t o buffer.old }
{
    let a = object_calls::held_read(stored, copies, received, log, counts, work, buffer, t, o);
    code(a)
}

// Creates object o.
#[unsafe(no_mangle)]
#[tactic(auto, using(codes::specs::Codes::told))]
pub extern "C" fn kophdaen_held_create(
    stored: &[u32],
    copies: &[u32],
    received: &mut [u32],
    log: &mut [u32],
    counts: &mut [u32],
    work: &mut [u32],
    t: u32,
    o: u32,
) -> u64
    requires { well_formed true (areas stored.now copies.now received.old log.old counts.old work.old) ≡ true }
    ensures value { result ≡ coded (call_create (areas stored.now copies.now received.old log.old counts.old work.old) t o).answer }
    ensures work_after { areas stored.now copies.now received.new log.new counts.new work.new ≡ (call_create (areas stored.now copies.now received.old log.old counts.old work.old) t o).after }
{
    let a = object_calls::held_create(stored, copies, received, log, counts, work, t, o);
    code(a)
}

// Sets word f of object o to v.
#[unsafe(no_mangle)]
#[tactic(auto, using(codes::specs::Codes::told))]
pub extern "C" fn kophdaen_held_set_word(
    stored: &[u32],
    copies: &[u32],
    received: &mut [u32],
    log: &mut [u32],
    counts: &mut [u32],
    work: &mut [u32],
    t: u32,
    o: u32,
    f: u32,
    v: u32,
) -> u64
    requires { well_formed true (areas stored.now copies.now received.old log.old counts.old work.old) ≡ true }
    ensures value { result ≡ coded (call_set (areas stored.now copies.now received.old log.old counts.old work.old) t o f v).answer }
    ensures work_after { areas stored.now copies.now received.new log.new counts.new work.new ≡ (call_set (areas stored.now copies.now received.old log.old counts.old work.old) t o f v).after }
{
    let a = object_calls::held_set_word(stored, copies, received, log, counts, work, t, o, f, v);
    code(a)
}

// Flushes page p with its image.
#[unsafe(no_mangle)]
#[tactic(auto, using(codes::specs::Codes::told))]
pub extern "C" fn kophdaen_held_flush(
    stored: &[u32],
    copies: &mut [u32],
    received: &[u32],
    log: &[u32],
    counts: &[u32],
    work: &mut [u32],
    image: &[u32],
    t: u32,
    p: u32,
) -> u64
    requires { well_formed (eqb (length image.now) page_words) (areas stored.now copies.old received.now log.now counts.now work.old) ≡ true }
    ensures value { result ≡ coded (call_flush (areas stored.now copies.old received.now log.now counts.now work.old) t p image.now).answer }
    ensures work_after { areas stored.now copies.new received.now log.now counts.now work.new ≡ (call_flush (areas stored.now copies.old received.now log.now counts.now work.old) t p image.now).after }
{
    let a = object_calls::held_flush(stored, copies, received, log, counts, work, t, p, image);
    code(a)
}

// Makes one more record stable.
#[unsafe(no_mangle)]
#[tactic(auto, using(codes::specs::Codes::told))]
pub extern "C" fn kophdaen_held_force(
    stored: &[u32],
    copies: &[u32],
    received: &[u32],
    log: &[u32],
    counts: &mut [u32],
    work: &[u32],
) -> u64
    requires { well_formed true (areas stored.now copies.now received.now log.now counts.old work.now) ≡ true }
    ensures value { result ≡ coded (call_force (areas stored.now copies.now received.now log.now counts.old work.now)).answer }
    ensures work_after { areas stored.now copies.now received.now log.now counts.new work.now ≡ (call_force (areas stored.now copies.now received.now log.now counts.old work.now)).after }
{
    let a = stability_calls::held_force(stored, copies, received, log, counts, work);
    code(a)
}

// Writes the copy of page p to the stored pages.
#[unsafe(no_mangle)]
#[tactic(auto, using(codes::specs::Codes::told))]
pub extern "C" fn kophdaen_held_store_page(
    stored: &mut [u32],
    copies: &[u32],
    received: &[u32],
    log: &[u32],
    counts: &[u32],
    work: &[u32],
    p: u32,
) -> u64
    requires { well_formed true (areas stored.old copies.now received.now log.now counts.now work.now) ≡ true }
    ensures value { result ≡ coded (call_store (areas stored.old copies.now received.now log.now counts.now work.now) p).answer }
    ensures work_after { areas stored.new copies.now received.now log.now counts.now work.now ≡ (call_store (areas stored.old copies.now received.now log.now counts.now work.now) p).after }
{
    let a = stability_calls::held_store_page(stored, copies, received, log, counts, work, p);
    code(a)
}

// Empties the log.
#[unsafe(no_mangle)]
#[tactic(auto, using(codes::specs::Codes::told))]
pub extern "C" fn kophdaen_held_empty_log(
    stored: &[u32],
    copies: &[u32],
    received: &[u32],
    log: &[u32],
    counts: &mut [u32],
    work: &mut [u32],
) -> u64
    requires { well_formed true (areas stored.now copies.now received.now log.now counts.old work.old) ≡ true }
    ensures value { result ≡ coded (call_empty (areas stored.now copies.now received.now log.now counts.old work.old)).answer }
    ensures work_after { areas stored.now copies.now received.now log.now counts.new work.new ≡ (call_empty (areas stored.now copies.now received.now log.now counts.old work.old)).after }
{
    let a = stability_calls::held_empty_log(stored, copies, received, log, counts, work);
    code(a)
}

// Starts a pass.
#[unsafe(no_mangle)]
#[tactic(auto, using(codes::specs::Codes::told))]
pub extern "C" fn kophdaen_held_start_pass(
    stored: &[u32],
    copies: &[u32],
    received: &[u32],
    log: &[u32],
    counts: &[u32],
    work: &mut [u32],
) -> u64
    requires { well_formed true (areas stored.now copies.now received.now log.now counts.now work.old) ≡ true }
    ensures value { result ≡ coded (call_pass (areas stored.now copies.now received.now log.now counts.now work.old)).answer }
    ensures work_after { areas stored.now copies.now received.now log.now counts.now work.new ≡ (call_pass (areas stored.now copies.now received.now log.now counts.now work.old)).after }
{
    let a = pass_calls::held_start_pass(stored, copies, received, log, counts, work);
    code(a)
}

// One step of a pass.
#[unsafe(no_mangle)]
#[tactic(auto, using(codes::specs::Codes::told))]
pub extern "C" fn kophdaen_held_pass_step(
    stored: &[u32],
    copies: &mut [u32],
    received: &mut [u32],
    log: &mut [u32],
    counts: &mut [u32],
    work: &mut [u32],
) -> u64
    requires { well_formed true (areas stored.now copies.old received.old log.old counts.old work.old) ≡ true }
    ensures value { result ≡ coded (call_step (areas stored.now copies.old received.old log.old counts.old work.old)).answer }
    ensures work_after { areas stored.now copies.new received.new log.new counts.new work.new ≡ (call_step (areas stored.now copies.old received.old log.old counts.old work.old)).after }
{
    let a = pass_calls::held_pass_step(stored, copies, received, log, counts, work);
    code(a)
}

// One step of a reopening.
#[unsafe(no_mangle)]
#[tactic(auto, using(codes::specs::Codes::told))]
pub extern "C" fn kophdaen_held_reopen_step(
    stored: &mut [u32],
    copies: &[u32],
    received: &[u32],
    log: &[u32],
    counts: &mut [u32],
    work: &mut [u32],
) -> u64
    requires { well_formed true (areas stored.old copies.now received.now log.now counts.old work.old) ≡ true }
    ensures value { result ≡ coded (call_restep (areas stored.old copies.now received.now log.now counts.old work.old)).answer }
    ensures work_after { areas stored.new copies.now received.now log.now counts.new work.new ≡ (call_restep (areas stored.old copies.now received.now log.now counts.old work.old)).after }
{
    let a = reopening_calls::held_restep(stored, copies, received, log, counts, work);
    code(a)
}

// Sets mark m of transaction t, or sets it again.
#[unsafe(no_mangle)]
#[tactic(auto, using(codes::specs::Codes::told))]
pub extern "C" fn kophdaen_held_mark(
    stored: &[u32],
    copies: &[u32],
    received: &[u32],
    log: &[u32],
    counts: &[u32],
    work: &mut [u32],
    t: u32,
    m: u32,
) -> u64
    requires { well_formed true (areas stored.now copies.now received.now log.now counts.now work.old) ≡ true }
    ensures value { result ≡ coded (call_mark (areas stored.now copies.now received.now log.now counts.now work.old) t m).answer }
    ensures work_after { areas stored.now copies.now received.now log.now counts.now work.new ≡ (call_mark (areas stored.now copies.now received.now log.now counts.now work.old) t m).after }
{
    let a = mark_calls::held_mark(stored, copies, received, log, counts, work, t, m);
    code(a)
}

// Takes transaction t back to its mark m.
#[unsafe(no_mangle)]
#[tactic(auto, using(codes::specs::Codes::told))]
pub extern "C" fn kophdaen_held_back(
    stored: &[u32],
    copies: &[u32],
    received: &mut [u32],
    log: &mut [u32],
    counts: &mut [u32],
    work: &mut [u32],
    t: u32,
    m: u32,
) -> u64
    requires { well_formed true (areas stored.now copies.now received.old log.old counts.old work.old) ≡ true }
    ensures value { result ≡ coded (call_back (areas stored.now copies.now received.old log.old counts.old work.old) t m).answer }
    ensures work_after { areas stored.now copies.now received.new log.new counts.new work.new ≡ (call_back (areas stored.now copies.now received.old log.old counts.old work.old) t m).after }
{
    let a = mark_calls::held_back(stored, copies, received, log, counts, work, t, m);
    code(a)
}

// Puts the chain of references that keeps object o in the copies into the buffer.
#[unsafe(no_mangle)]
pub extern "C" fn kophdaen_held_chain(
    stored: &[u32],
    copies: &[u32],
    received: &[u32],
    log: &[u32],
    counts: &[u32],
    work: &[u32],
    chain: &mut [u32],
    o: u32,
) -> u64
    requires { well_formed (eqb (length chain.old) chain_words) (areas stored.now copies.now received.now log.now counts.now work.now) ≡ true }
    ensures value { result ≡ coded (call_chain (areas stored.now copies.now received.now log.now counts.now work.now) chain.old o).answer }
    ensures work_value { areas stored.now copies.now received.now log.now counts.now work.now ≡ (call_chain (areas stored.now copies.now received.now log.now counts.now work.now) chain.old o).after }
    ensures chain_after { chain.new ≡ chain_after (areas stored.now copies.now received.now log.now counts.now work.now) chain.old o }
{
    let a = look_calls::held_chain(stored, copies, received, log, counts, work, chain, o);
    code(a)
}

// Puts what each of a number of commits owes of the steps of a pass into the buffer.
#[unsafe(no_mangle)]
pub extern "C" fn kophdaen_held_pass_share(
    stored: &[u32],
    copies: &[u32],
    received: &[u32],
    log: &[u32],
    counts: &[u32],
    work: &[u32],
    share: &mut [u32],
    commits: u32,
) -> u64
    requires { well_formed (eqb (length share.old) share_words) (areas stored.now copies.now received.now log.now counts.now work.now) ≡ true }
    ensures value { result ≡ coded (call_pass_share (areas stored.now copies.now received.now log.now counts.now work.now) share.old commits).answer }
    ensures work_value { areas stored.now copies.now received.now log.now counts.now work.now ≡ (call_pass_share (areas stored.now copies.now received.now log.now counts.now work.now) share.old commits).after }
    ensures share_after { share.new ≡ pass_share_after (areas stored.now copies.now received.now log.now counts.now work.now) share.old commits }
{
    let a = look_calls::shares::held_pass_share(
        stored, copies, received, log, counts, work, share, commits,
    );
    code(a)
}
