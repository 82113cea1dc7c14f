// The calls as C functions: each answers the answer's number times 2^32, plus its value. C lends six areas, const or not by call: no
// struct of Rattle's references is both, so here and in the calls below they are six parameters.
#![tactic(auto)]

ghost use Rattle.std.specs.Prelude.{◌≡◌};
ghost use Rattle.areas.specs.Areas.{areas};
ghost use Rattle.calls.specs.Formatting.{call_format};
ghost use Rattle.calls.specs.Transactions.{call_begin, call_commit, call_abort};
ghost use Rattle.calls.specs.Rights.{call_grant};
ghost use Rattle.calls.specs.Locks.{call_lock_read, call_lock_write};
ghost use Rattle.calls.specs.Objects.{call_read, call_create, call_set, call_flush, buffer_after};
ghost use Rattle.calls.specs.Stability.{call_force, call_store, call_empty};
ghost use Rattle.calls.specs.Pass.{call_pass, call_step};
ghost use Rattle.calls.specs.Reopening.{call_reopen, call_restep};
ghost use Rattle.calls.specs.Marks.{call_mark, call_back};
ghost use Rattle.calls.specs.Chains.{call_chain, chain_after};
ghost use Rattle.calls.specs.PassShares.{call_pass_share, pass_share_after};
ghost use Rattle.codes.specs.Codes.{coded};

use codes::code;

mod arranging;
mod held;
mod whole;

// Makes the root and no other object.
#[unsafe(no_mangle)]
#[tactic(auto, using(codes::specs::Codes::told))]
pub extern "C" fn kophdaen_format(
    stored: &mut [u32],
    copies: &mut [u32],
    received: &mut [u32],
    log: &mut [u32],
    counts: &mut [u32],
    work: &mut [u32],
) -> u64
    ensures value { result ≡ coded (call_format (areas stored.old copies.old received.old log.old counts.old work.old)).answer }
    ensures work_after { areas stored.new copies.new received.new log.new counts.new work.new ≡ (call_format (areas stored.old copies.old received.old log.old counts.old work.old)).after }
{
    let a = formatting::format(stored, copies, received, log, counts, work);
    code(a)
}

// Begins transaction t as the client.
#[unsafe(no_mangle)]
#[tactic(auto, using(codes::specs::Codes::told))]
pub extern "C" fn kophdaen_begin(
    stored: &[u32],
    copies: &[u32],
    received: &mut [u32],
    log: &mut [u32],
    counts: &mut [u32],
    work: &mut [u32],
    t: u32,
    client: u32,
) -> u64
    ensures value { result ≡ coded (call_begin (areas stored.now copies.now received.old log.old counts.old work.old) t client).answer }
    ensures work_after { areas stored.now copies.now received.new log.new counts.new work.new ≡ (call_begin (areas stored.now copies.now received.old log.old counts.old work.old) t client).after }
{
    let a = transaction_calls::begin(stored, copies, received, log, counts, work, t, client);
    code(a)
}

// Commits transaction t.
#[unsafe(no_mangle)]
#[tactic(auto, using(codes::specs::Codes::told))]
pub extern "C" fn kophdaen_commit(
    stored: &[u32],
    copies: &[u32],
    received: &mut [u32],
    log: &mut [u32],
    counts: &mut [u32],
    work: &mut [u32],
    t: u32,
) -> u64
    ensures value { result ≡ coded (call_commit (areas stored.now copies.now received.old log.old counts.old work.old) t).answer }
    ensures work_after { areas stored.now copies.now received.new log.new counts.new work.new ≡ (call_commit (areas stored.now copies.now received.old log.old counts.old work.old) t).after }
{
    let a = transaction_calls::commit(stored, copies, received, log, counts, work, t);
    code(a)
}

// Aborts transaction t.
#[unsafe(no_mangle)]
#[tactic(auto, using(codes::specs::Codes::told))]
pub extern "C" fn kophdaen_abort(
    stored: &[u32],
    copies: &mut [u32],
    received: &mut [u32],
    log: &mut [u32],
    counts: &mut [u32],
    work: &mut [u32],
    t: u32,
) -> u64
    ensures value { result ≡ coded (call_abort (areas stored.now copies.old received.old log.old counts.old work.old) t).answer }
    ensures work_after { areas stored.now copies.new received.new log.new counts.new work.new ≡ (call_abort (areas stored.now copies.old received.old log.old counts.old work.old) t).after }
{
    let a = transaction_calls::abort(stored, copies, received, log, counts, work, t);
    code(a)
}

// Gives client c the right r on page p: 0 nothing, 1 reading, 2 reading and writing.
#[unsafe(no_mangle)]
#[tactic(auto, using(codes::specs::Codes::told))]
pub extern "C" fn kophdaen_grant(
    stored: &[u32],
    copies: &[u32],
    received: &[u32],
    log: &[u32],
    counts: &[u32],
    work: &mut [u32],
    c: u32,
    p: u32,
    r: u32,
) -> u64
    ensures value { result ≡ coded (call_grant (areas stored.now copies.now received.now log.now counts.now work.old) c p r).answer }
    ensures work_after { areas stored.now copies.now received.now log.now counts.now work.new ≡ (call_grant (areas stored.now copies.now received.now log.now counts.now work.old) c p r).after }
{
    let a = right_calls::grant(stored, copies, received, log, counts, work, c, p, r);
    code(a)
}

// Locks page p for reading.
#[unsafe(no_mangle)]
#[tactic(auto, using(codes::specs::Codes::told))]
pub extern "C" fn kophdaen_lock_read(
    stored: &[u32],
    copies: &[u32],
    received: &[u32],
    log: &[u32],
    counts: &[u32],
    work: &mut [u32],
    t: u32,
    p: u32,
) -> u64
    ensures value { result ≡ coded (call_lock_read (areas stored.now copies.now received.now log.now counts.now work.old) t p).answer }
    ensures work_after { areas stored.now copies.now received.now log.now counts.now work.new ≡ (call_lock_read (areas stored.now copies.now received.now log.now counts.now work.old) t p).after }
{
    let a = lock_calls::lock_read(stored, copies, received, log, counts, work, t, p);
    code(a)
}

// Locks page p for writing.
#[unsafe(no_mangle)]
#[tactic(auto, using(codes::specs::Codes::told))]
pub extern "C" fn kophdaen_lock_write(
    stored: &[u32],
    copies: &[u32],
    received: &[u32],
    log: &[u32],
    counts: &[u32],
    work: &mut [u32],
    t: u32,
    p: u32,
) -> u64
    ensures value { result ≡ coded (call_lock_write (areas stored.now copies.now received.now log.now counts.now work.old) t p).answer }
    ensures work_after { areas stored.now copies.now received.now log.now counts.now work.new ≡ (call_lock_write (areas stored.now copies.now received.now log.now counts.now work.old) t p).after }
{
    let a = lock_calls::lock_write(stored, copies, received, log, counts, work, t, p);
    code(a)
}

// Puts object o's eight words into the buffer.
#[unsafe(no_mangle)]
pub extern "C" fn kophdaen_read(
    stored: &[u32],
    copies: &[u32],
    received: &[u32],
    log: &[u32],
    counts: &[u32],
    work: &mut [u32],
    buffer: &mut [u32],
    t: u32,
    o: u32,
) -> u64
    ensures value { result ≡ coded (call_read (areas stored.now copies.now received.now log.now counts.now work.old) t o buffer.old).answer }
    ensures work_after { areas stored.now copies.now received.now log.now counts.now work.new ≡ (call_read (areas stored.now copies.now received.now log.now counts.now work.old) t o buffer.old).after }
    ensures buffer_after { buffer.new ≡ buffer_after (areas stored.now copies.now received.now log.now counts.now work.old) t o buffer.old }
{
    let a = object_calls::read(stored, copies, received, log, counts, work, buffer, t, o);
    code(a)
}

// Creates object o.
#[unsafe(no_mangle)]
#[tactic(auto, using(codes::specs::Codes::told))]
pub extern "C" fn kophdaen_create(
    stored: &[u32],
    copies: &[u32],
    received: &mut [u32],
    log: &mut [u32],
    counts: &mut [u32],
    work: &mut [u32],
    t: u32,
    o: u32,
) -> u64
    ensures value { result ≡ coded (call_create (areas stored.now copies.now received.old log.old counts.old work.old) t o).answer }
    ensures work_after { areas stored.now copies.now received.new log.new counts.new work.new ≡ (call_create (areas stored.now copies.now received.old log.old counts.old work.old) t o).after }
{
    let a = object_calls::create(stored, copies, received, log, counts, work, t, o);
    code(a)
}

// Sets word f of object o to v.
#[unsafe(no_mangle)]
#[tactic(auto, using(codes::specs::Codes::told))]
pub extern "C" fn kophdaen_set_word(
    stored: &[u32],
    copies: &[u32],
    received: &mut [u32],
    log: &mut [u32],
    counts: &mut [u32],
    work: &mut [u32],
    t: u32,
    o: u32,
    f: u32,
    v: u32,
) -> u64
    ensures value { result ≡ coded (call_set (areas stored.now copies.now received.old log.old counts.old work.old) t o f v).answer }
    ensures work_after { areas stored.now copies.now received.new log.new counts.new work.new ≡ (call_set (areas stored.now copies.now received.old log.old counts.old work.old) t o f v).after }
{
    let a = object_calls::set_word(stored, copies, received, log, counts, work, t, o, f, v);
    code(a)
}

// Flushes page p with its image.
#[unsafe(no_mangle)]
#[tactic(auto, using(codes::specs::Codes::told))]
pub extern "C" fn kophdaen_flush(
    stored: &[u32],
    copies: &mut [u32],
    received: &[u32],
    log: &[u32],
    counts: &[u32],
    work: &mut [u32],
    image: &[u32],
    t: u32,
    p: u32,
) -> u64
    ensures value { result ≡ coded (call_flush (areas stored.now copies.old received.now log.now counts.now work.old) t p image.now).answer }
    ensures work_after { areas stored.now copies.new received.now log.now counts.now work.new ≡ (call_flush (areas stored.now copies.old received.now log.now counts.now work.old) t p image.now).after }
{
    let a = object_calls::flush(stored, copies, received, log, counts, work, t, p, image);
    code(a)
}

// Makes one more record stable.
#[unsafe(no_mangle)]
#[tactic(auto, using(codes::specs::Codes::told))]
pub extern "C" fn kophdaen_force(
    stored: &[u32],
    copies: &[u32],
    received: &[u32],
    log: &[u32],
    counts: &mut [u32],
    work: &[u32],
) -> u64
    ensures value { result ≡ coded (call_force (areas stored.now copies.now received.now log.now counts.old work.now)).answer }
    ensures work_after { areas stored.now copies.now received.now log.now counts.new work.now ≡ (call_force (areas stored.now copies.now received.now log.now counts.old work.now)).after }
{
    let a = stability_calls::force(stored, copies, received, log, counts, work);
    code(a)
}

// Writes the copy of page p to the stored pages.
#[unsafe(no_mangle)]
#[tactic(auto, using(codes::specs::Codes::told))]
pub extern "C" fn kophdaen_store_page(
    stored: &mut [u32],
    copies: &[u32],
    received: &[u32],
    log: &[u32],
    counts: &[u32],
    work: &[u32],
    p: u32,
) -> u64
    ensures value { result ≡ coded (call_store (areas stored.old copies.now received.now log.now counts.now work.now) p).answer }
    ensures work_after { areas stored.new copies.now received.now log.now counts.now work.now ≡ (call_store (areas stored.old copies.now received.now log.now counts.now work.now) p).after }
{
    let a = stability_calls::store_page(stored, copies, received, log, counts, work, p);
    code(a)
}

// Empties the log.
#[unsafe(no_mangle)]
#[tactic(auto, using(codes::specs::Codes::told))]
pub extern "C" fn kophdaen_empty_log(
    stored: &[u32],
    copies: &[u32],
    received: &[u32],
    log: &[u32],
    counts: &mut [u32],
    work: &mut [u32],
) -> u64
    ensures value { result ≡ coded (call_empty (areas stored.now copies.now received.now log.now counts.old work.old)).answer }
    ensures work_after { areas stored.now copies.now received.now log.now counts.new work.new ≡ (call_empty (areas stored.now copies.now received.now log.now counts.old work.old)).after }
{
    let a = stability_calls::empty_log(stored, copies, received, log, counts, work);
    code(a)
}

// Starts a pass.
#[unsafe(no_mangle)]
#[tactic(auto, using(codes::specs::Codes::told))]
pub extern "C" fn kophdaen_start_pass(
    stored: &[u32],
    copies: &[u32],
    received: &[u32],
    log: &[u32],
    counts: &[u32],
    work: &mut [u32],
) -> u64
    ensures value { result ≡ coded (call_pass (areas stored.now copies.now received.now log.now counts.now work.old)).answer }
    ensures work_after { areas stored.now copies.now received.now log.now counts.now work.new ≡ (call_pass (areas stored.now copies.now received.now log.now counts.now work.old)).after }
{
    let a = pass_calls::start_pass(stored, copies, received, log, counts, work);
    code(a)
}

// One step of a pass.
#[unsafe(no_mangle)]
#[tactic(auto, using(codes::specs::Codes::told))]
pub extern "C" fn kophdaen_pass_step(
    stored: &[u32],
    copies: &mut [u32],
    received: &mut [u32],
    log: &mut [u32],
    counts: &mut [u32],
    work: &mut [u32],
) -> u64
    ensures value { result ≡ coded (call_step (areas stored.now copies.old received.old log.old counts.old work.old)).answer }
    ensures work_after { areas stored.now copies.new received.new log.new counts.new work.new ≡ (call_step (areas stored.now copies.old received.old log.old counts.old work.old)).after }
{
    let a = pass_calls::pass_step(stored, copies, received, log, counts, work);
    code(a)
}

// Reopens the store after a power cut.
#[unsafe(no_mangle)]
#[tactic(auto, using(codes::specs::Codes::told))]
pub extern "C" fn kophdaen_reopen(
    stored: &[u32],
    copies: &mut [u32],
    received: &mut [u32],
    log: &[u32],
    counts: &mut [u32],
    work: &mut [u32],
) -> u64
    ensures value { result ≡ coded (call_reopen (areas stored.now copies.old received.old log.now counts.old work.old)).answer }
    ensures work_after { areas stored.now copies.new received.new log.now counts.new work.new ≡ (call_reopen (areas stored.now copies.old received.old log.now counts.old work.old)).after }
{
    let a = reopening_calls::reopen(stored, copies, received, log, counts, work);
    code(a)
}

// One step of a reopening.
#[unsafe(no_mangle)]
#[tactic(auto, using(codes::specs::Codes::told))]
pub extern "C" fn kophdaen_reopen_step(
    stored: &mut [u32],
    copies: &[u32],
    received: &[u32],
    log: &[u32],
    counts: &mut [u32],
    work: &mut [u32],
) -> u64
    ensures value { result ≡ coded (call_restep (areas stored.old copies.now received.now log.now counts.old work.old)).answer }
    ensures work_after { areas stored.new copies.now received.now log.now counts.new work.new ≡ (call_restep (areas stored.old copies.now received.now log.now counts.old work.old)).after }
{
    let a = reopening_calls::restep(stored, copies, received, log, counts, work);
    code(a)
}

// Sets mark m of transaction t, or sets it again.
#[unsafe(no_mangle)]
#[tactic(auto, using(codes::specs::Codes::told))]
pub extern "C" fn kophdaen_mark(
    stored: &[u32],
    copies: &[u32],
    received: &[u32],
    log: &[u32],
    counts: &[u32],
    work: &mut [u32],
    t: u32,
    m: u32,
) -> u64
    ensures value { result ≡ coded (call_mark (areas stored.now copies.now received.now log.now counts.now work.old) t m).answer }
    ensures work_after { areas stored.now copies.now received.now log.now counts.now work.new ≡ (call_mark (areas stored.now copies.now received.now log.now counts.now work.old) t m).after }
{
    let a = mark_calls::mark(stored, copies, received, log, counts, work, t, m);
    code(a)
}

// Takes transaction t back to its mark m.
#[unsafe(no_mangle)]
#[tactic(auto, using(codes::specs::Codes::told))]
pub extern "C" fn kophdaen_back(
    stored: &[u32],
    copies: &[u32],
    received: &mut [u32],
    log: &mut [u32],
    counts: &mut [u32],
    work: &mut [u32],
    t: u32,
    m: u32,
) -> u64
    ensures value { result ≡ coded (call_back (areas stored.now copies.now received.old log.old counts.old work.old) t m).answer }
    ensures work_after { areas stored.now copies.now received.new log.new counts.new work.new ≡ (call_back (areas stored.now copies.now received.old log.old counts.old work.old) t m).after }
{
    let a = mark_calls::back(stored, copies, received, log, counts, work, t, m);
    code(a)
}

// Puts the chain of references that keeps object o in the copies into the buffer.
#[unsafe(no_mangle)]
pub extern "C" fn kophdaen_chain(
    stored: &[u32],
    copies: &[u32],
    received: &[u32],
    log: &[u32],
    counts: &[u32],
    work: &[u32],
    chain: &mut [u32],
    o: u32,
) -> u64
    ensures value { result ≡ coded (call_chain (areas stored.now copies.now received.now log.now counts.now work.now) chain.old o).answer }
    ensures work_value { areas stored.now copies.now received.now log.now counts.now work.now ≡ (call_chain (areas stored.now copies.now received.now log.now counts.now work.now) chain.old o).after }
    ensures chain_after { chain.new ≡ chain_after (areas stored.now copies.now received.now log.now counts.now work.now) chain.old o }
{
    let a = look_calls::chain(stored, copies, received, log, counts, work, chain, o);
    code(a)
}

// Puts what each of a number of commits owes of the steps of a pass into the buffer.
#[unsafe(no_mangle)]
pub extern "C" fn kophdaen_pass_share(
    stored: &[u32],
    copies: &[u32],
    received: &[u32],
    log: &[u32],
    counts: &[u32],
    work: &[u32],
    share: &mut [u32],
    commits: u32,
) -> u64
    ensures value { result ≡ coded (call_pass_share (areas stored.now copies.now received.now log.now counts.now work.now) share.old commits).answer }
    ensures work_value { areas stored.now copies.now received.now log.now counts.now work.now ≡ (call_pass_share (areas stored.now copies.now received.now log.now counts.now work.now) share.old commits).after }
    ensures share_after { share.new ≡ pass_share_after (areas stored.now copies.now received.now log.now counts.now work.now) share.old commits }
{
    let a = look_calls::shares::pass_share(
        stored, copies, received, log, counts, work, share, commits,
    );
    code(a)
}
