// The bench program's calls on pages and objects.
#![tactic(auto)]

ghost use Rattle.std.specs.Prelude.{◌≡◌};
ghost use Rattle.areas.specs.Areas.{areas, out};
ghost use Rattle.bench_names.specs.declared.ObjectCall.TheVariants.{Flush, Read};
ghost use Rattle.bench_run.specs.Bench.{object_call};

use areas::Answer;
use bench_names::ObjectCall;
use object_calls::{create, set_word};

// The words of an object.
const OBJECT_WORDS: usize = 8;

// Flushes page p with the received page itself.
fn flush_received(
    stored: &[u32],
    copies: &mut [u32],
    received: &[u32],
    log: &[u32],
    counts: &[u32],
    work: &mut [u32],
    t: u32,
    p: u32,
) -> Answer
    ensures { out result stored.now copies.new received.now log.now counts.now work.new ≡ object_call (areas stored.now copies.old received.now log.now counts.now work.old) (Flush t p) }
{
    let image = bench_images::page_sent(received, p);
    object_calls::flush(stored, copies, received, log, counts, work, t, p, &image)
}

// Reads object o; an output line shows its word 0 only.
fn read_object(
    stored: &[u32],
    copies: &[u32],
    received: &[u32],
    log: &[u32],
    counts: &[u32],
    work: &mut [u32],
    t: u32,
    o: u32,
) -> Answer
    ensures { out result stored.now copies.now received.now log.now counts.now work.new ≡ object_call (areas stored.now copies.now received.now log.now counts.now work.old) (Read t o) }
{
    let mut buffer = [0u32; OBJECT_WORDS];
    object_calls::read(
        stored,
        copies,
        received,
        log,
        counts,
        work,
        &mut buffer,
        t,
        o,
    )
}

// Does a call on pages and objects.
pub fn object_call(
    stored: &[u32],
    copies: &mut [u32],
    received: &mut [u32],
    log: &mut [u32],
    counts: &mut [u32],
    work: &mut [u32],
    c: ObjectCall,
) -> Answer
    ensures { out result stored.now copies.new received.new log.new counts.new work.new ≡ object_call (areas stored.now copies.old received.old log.old counts.old work.old) c }
{
    match c {
        ObjectCall::Flush(t, p) => flush_received(
            stored, copies, received, log, counts, work, t, p,
        ),
        ObjectCall::Read(t, o) => read_object(stored, copies, received, log, counts, work, t, o),
        ObjectCall::Create(t, o) => create(stored, copies, received, log, counts, work, t, o),
        ObjectCall::Set(t, o, f, v) => set_word(
            stored, copies, received, log, counts, work, t, o, f, v,
        ),
    }
}
