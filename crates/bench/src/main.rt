// The bench program: a store of 4 pages and 64 log records in memory; lines in, answers out.
#![tactic(auto)]

ghost use Rattle.std.specs.Prelude.{ℕ, ◌+◌, ◌≤◌, ◌≡◌, length, IfSome};
ghost use Rattle.areas.specs.Areas.{areas};
ghost use Rattle.bench_run.specs.Bench.{bench_store};
ghost use Rattle.bench_serving.specs.Held.{state_of};
ghost use Rattle.bench.specs.Turns.{chunk, Reached, Lines};

use areas::layout;
use bench_serving::{Place, serve_bytes, serve_last};
use std::io::{Print, Read, Stderr, Stdin, Stdout};

// The store: so many pages and log records.
const PAGES: usize = bench_rights::PAGES as usize;

const RECORDS: usize = 64;

// The words of each page area, of the log and its counts, and of the working tables.
const PAGE_AREA: usize = pages::PAGE_WORDS * PAGES;

const LOG_AREA: usize = records::RECORD_WORDS * RECORDS;

const COUNTS: usize = layout::COUNT_WORDS;

const WORK_AREA: usize = layout::SINGLE_WORDS
    + layout::WORDS_PER_PAGE * PAGES
    + 2 * layout::MARK_WORDS
    + layout::CLIENT_WORDS
    + layout::RIGHTS_PER_PAGE * PAGES
    + RECORDS;

// The bytes that are read at a time.
const CHUNK: usize = 1024;

// Room for the output lines of a chunk: a byte ends at most one line.
const OUT_ROOM: usize = bench_output::LINE_ROOM * CHUNK;

// The chunks that are read at most, since a proved loop ends: their lines have numbers of 64 bits, and no run has as many.
const TURNS: u64 = u64::MAX / (CHUNK as u64);

// Where the program stands between two chunks: the place, whether another chunk is read, and whether the input ended.
// Neither: reading or writing failed.
#[derive(Clone, Copy)]
struct Turn {
    place: Place,
    more: bool,
    ended: bool,
}

// Where the program reads, writes, and says what failed.
#[derive(Clone, Copy)]
struct Streams {
    input: Stdin,
    output: Stdout,
    errors: Stderr,
}

// Reads a chunk and gives its length, or says that it failed and gives nothing.
fn read_chunk(streams: Streams, buf: &mut [u8]) -> Option<usize>
    ensures { IfSome result (λ n. n ≤ length buf.new) }
{
    let mut input = streams.input;
    match input.read(buf) {
        Ok(n) => Some(n),
        Err(_) => {
            let _ = streams.errors.write_all(b"bench: reading failed\n");
            None
        }
    }
}

// Writes output lines, or says that it failed.
fn put(streams: Streams, lines: &[u8]) -> bool
    requires { Lines lines.now }
{
    let written = streams.output.write_all(lines).is_ok();
    if !written {
        let _ = streams.errors.write_all(b"bench: writing failed\n");
    }
    written
}

// Reads a chunk, serves its bytes, and writes their output lines with one write.
fn take_chunk(
    streams: Streams,
    stored: &mut [u32],
    copies: &mut [u32],
    received: &mut [u32],
    log: &mut [u32],
    counts: &mut [u32],
    work: &mut [u32],
    place: Place,
) -> Turn
    requires { Reached (state_of (areas stored.old copies.old received.old log.old counts.old work.old) place) (chunk + 1) }
    ensures { (n : ℕ) → Reached (state_of (areas stored.old copies.old received.old log.old counts.old work.old) place) (chunk + n) → Reached (state_of (areas stored.new copies.new received.new log.new counts.new work.new) result.place) n }
{
    let mut buf = [0u8; CHUNK];
    let got = read_chunk(streams, &mut buf);
    let n = got.unwrap_or(0);
    let mut out = [0u8; OUT_ROOM];
    let at = serve_bytes(
        stored,
        copies,
        received,
        log,
        counts,
        work,
        &mut out,
        place,
        &buf[..n],
    );
    let used = at.used;
    let written = put(streams, &out[..used]);
    Turn {
        place: at,
        more: n > 0 && written,
        ended: got == Some(0),
    }
}

// Takes standard input, chunk by chunk.
fn take_input(
    streams: Streams,
    stored: &mut [u32],
    copies: &mut [u32],
    received: &mut [u32],
    log: &mut [u32],
    counts: &mut [u32],
    work: &mut [u32],
) -> Turn
    requires { areas stored.old copies.old received.old log.old counts.old work.old ≡ bench_store }
    ensures { Reached (state_of (areas stored.new copies.new received.new log.new counts.new work.new) result.place) 1 }
{
    let place = bench_serving::start();
    let mut turn = Turn {
        place,
        more: true,
        ended: false,
    };
    for _ in 0..TURNS {
        turn = take_chunk(
            streams, stored, copies, received, log, counts, work, turn.place,
        );
        if !turn.more {
            break;
        }
    }
    turn
}

// Takes the end of the input: the last line, and its output line.
fn take_last(
    streams: Streams,
    stored: &mut [u32],
    copies: &mut [u32],
    received: &mut [u32],
    log: &mut [u32],
    counts: &mut [u32],
    work: &mut [u32],
    place: Place,
)
    requires { Reached (state_of (areas stored.old copies.old received.old log.old counts.old work.old) place) 1 }
{
    let mut out = [0u8; bench_output::LINE_ROOM];
    let next = serve_last(stored, copies, received, log, counts, work, &mut out, place);
    let used = next.used;
    put(streams, &out[..used]);
}

// Takes standard input to its end. Where reading or writing failed, nothing more is done.
fn take_all(
    streams: Streams,
    stored: &mut [u32],
    copies: &mut [u32],
    received: &mut [u32],
    log: &mut [u32],
    counts: &mut [u32],
    work: &mut [u32],
)
    requires { areas stored.old copies.old received.old log.old counts.old work.old ≡ bench_store }
{
    let turn = take_input(streams, stored, copies, received, log, counts, work);
    if turn.ended {
        take_last(
            streams, stored, copies, received, log, counts, work, turn.place,
        );
    }
}

// The status is 0 also where reading or writing failed, which standard error says.
fn main(rt: HostRuntime) {
    let streams = Streams {
        input: rt.stdin(),
        output: rt.stdout(),
        errors: rt.stderr(),
    };
    let mut stored = [0u32; PAGE_AREA];
    let mut copies = [0u32; PAGE_AREA];
    let mut received = [0u32; PAGE_AREA];
    let mut log = [0u32; LOG_AREA];
    let mut counts = [0u32; COUNTS];
    let mut work = [0u32; WORK_AREA];
    // Not refused: the areas have the lengths that it asks for.
    let _ = formatting::format(
        &mut stored,
        &mut copies,
        &mut received,
        &mut log,
        &mut counts,
        &mut work,
    );
    bench_rights::give_all(&stored, &copies, &received, &log, &counts, &mut work);
    take_all(
        streams,
        &mut stored,
        &mut copies,
        &mut received,
        &mut log,
        &mut counts,
        &mut work,
    );
}
