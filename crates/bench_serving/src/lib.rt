// The input of the bench program served: its bytes one by one, the call of each line that ends, the output lines.
#![tactic(auto)]

ghost use Rattle.std.specs.Prelude.{◌≡◌, length};
ghost use Rattle.std.proofs.lemmas.List.Edits.{sets};
ghost use Rattle.areas.specs.Areas.{areas};
ghost use Rattle.bench_serving.specs.Serving.{served_end, served_byte, served, served_last, answer_text};
ghost use Rattle.bench_serving.specs.Held.{state_of, held, filled, started, emptied, told, Fits};

use areas::Answer;
use bench_feeding::Line;
use bench_names::Command;

// Where the serving stands: the line so far, the number of the next one, and the bytes of the output buffer that are used. The buffer is
// lent, in fixed memory.
#[derive(Clone, Copy)]
pub struct Place {
    pub line: Line,
    pub number: u64,
    pub used: usize,
}

// Nothing is read: the first line has number 1.
pub fn start() -> Place
    ensures { result ≡ started }
{
    let line = bench_feeding::no_line();
    Place {
        line,
        number: 1,
        used: 0,
    }
}

// Appends the output line of an answer.
fn tell(out: &mut [u8], place: Place, a: Answer) -> Place
    requires { Fits place out.old 1 }
    ensures { (result ≡ told place a) × (out.new ≡ sets out.old place.used (answer_text place.number a)) }
{
    let line = place.line;
    let number = place.number;
    let used = place.used;
    let answer = areas::answer_of(a);
    let value = areas::value_of(a);
    let end = bench_output::put_line(out, used, number, answer, value);
    Place {
        line,
        number: number + 1,
        used: end,
    }
}

// Does the call of a line, if one ended, and appends its output line.
fn serve_end(
    stored: &mut [u32],
    copies: &mut [u32],
    received: &mut [u32],
    log: &mut [u32],
    counts: &mut [u32],
    work: &mut [u32],
    out: &mut [u8],
    place: Place,
    ended: Option<Command>,
) -> Place
    requires { Fits place out.old 1 }
    ensures { held (areas stored.new copies.new received.new log.new counts.new work.new) result out.new ≡ filled (served_end (state_of (areas stored.old copies.old received.old log.old counts.old work.old) place) ended) place.used out.old }
{
    match ended {
        None => place,
        Some(c) => {
            let a = bench_calls::serve(stored, copies, received, log, counts, work, c);
            tell(out, place, a)
        }
    }
}

// Takes one byte.
fn serve_byte(
    stored: &mut [u32],
    copies: &mut [u32],
    received: &mut [u32],
    log: &mut [u32],
    counts: &mut [u32],
    work: &mut [u32],
    out: &mut [u8],
    place: Place,
    b: u8,
) -> Place
    requires { Fits place out.old 1 }
    ensures { held (areas stored.new copies.new received.new log.new counts.new work.new) result out.new ≡ filled (served_byte (state_of (areas stored.old copies.old received.old log.old counts.old work.old) place) b) place.used out.old }
{
    let fed = bench_feeding::feed(place.line, b);
    let next = fed.line;
    let ended = fed.ended;
    let at = Place {
        line: next,
        number: place.number,
        used: place.used,
    };
    serve_end(stored, copies, received, log, counts, work, out, at, ended)
}

// Takes bytes one by one, with their output lines from the start of the buffer.
pub fn serve_bytes(
    stored: &mut [u32],
    copies: &mut [u32],
    received: &mut [u32],
    log: &mut [u32],
    counts: &mut [u32],
    work: &mut [u32],
    out: &mut [u8],
    place: Place,
    bytes: &[u8],
) -> Place
    requires { Fits (emptied place) out.old (length bytes.now) }
    ensures { held (areas stored.new copies.new received.new log.new counts.new work.new) result out.new ≡ filled (served (state_of (areas stored.old copies.old received.old log.old counts.old work.old) place) bytes.now) 0 out.old }
{
    let mut at = Place { used: 0, ..place };
    for &b in bytes {
        at = serve_byte(stored, copies, received, log, counts, work, out, at, b);
    }
    at
}

// Takes the end of the input, which the last line may have in the place of its CRLF: its output line from the start of the buffer.
pub fn serve_last(
    stored: &mut [u32],
    copies: &mut [u32],
    received: &mut [u32],
    log: &mut [u32],
    counts: &mut [u32],
    work: &mut [u32],
    out: &mut [u8],
    place: Place,
) -> Place
    requires { Fits (emptied place) out.old 1 }
    ensures { held (areas stored.new copies.new received.new log.new counts.new work.new) result out.new ≡ filled (served_last (state_of (areas stored.old copies.old received.old log.old counts.old work.old) place)) 0 out.old }
{
    let last = bench_feeding::finish(place.line);
    let next = bench_feeding::no_line();
    let at = Place {
        line: next,
        used: 0,
        ..place
    };
    serve_end(stored, copies, received, log, counts, work, out, at, last)
}
