// The input of the bench program, byte by byte.
#![tactic(auto)]

ghost use Rattle.std.specs.Prelude.{◌≡◌};
ghost use Rattle.bench_feeding.specs.Reading.{no_line, pushed, settled, held_command, fed, finished};

use bench_names::Command;
use texts::{CR, LF};

// The bytes of a line that are kept: no call has as many.
pub const LINE_BYTES: usize = 64;

// The count of a line with more bytes than are kept.
const MORE: usize = LINE_BYTES + 1;

// The line that is being read: its first bytes, how many it has (MORE: more than are kept),
// and whether a CR came last, which is no byte of the line if an LF follows. Fixed memory: an array, with the count beside it.
#[derive(Clone, Copy)]
pub struct Line {
    pub bytes: [u8; LINE_BYTES],
    pub count: usize,
    pub cr: bool,
}

// The line after a byte, and the command of the line that the byte ended, if it ended one.
#[derive(Clone, Copy)]
pub struct Fed {
    pub line: Line,
    pub ended: Option<Command>,
}

// A line of which nothing is read.
pub fn no_line() -> Line
    ensures { result ≡ no_line }
{
    Line {
        bytes: [0u8; LINE_BYTES],
        count: 0,
        cr: false,
    }
}

// The line with one byte more.
fn push(line: Line, b: u8) -> Line
    ensures { result ≡ pushed line b }
{
    let n = line.count;
    let mut w = line.bytes;
    if n < LINE_BYTES {
        w[n] = b;
        return Line {
            bytes: w,
            count: n + 1,
            cr: false,
        };
    }
    Line {
        bytes: w,
        count: MORE,
        cr: false,
    }
}

// The line with the CR that came last among its bytes.
fn settle(line: Line) -> Line
    ensures { result ≡ settled line }
{
    if line.cr {
        return push(line, CR);
    }
    line
}

// The command of the line; more bytes than are kept are no call.
fn held(line: Line) -> Command
    ensures { result ≡ held_command line }
{
    let n = line.count;
    if LINE_BYTES < n {
        return Command::NoCall;
    }
    let w = line.bytes;
    bench_commands::command_of(&w[..n])
}

// The line after a byte of input, and the command of the line that the byte ends.
pub fn feed(line: Line, b: u8) -> Fed
    ensures { result ≡ fed line b }
{
    let cr = line.cr;
    if cr & (b == LF) {
        let c = held(line);
        let next = no_line();
        return Fed {
            line: next,
            ended: Some(c),
        };
    }
    let l = settle(line);
    if b == CR {
        let next = Line { cr: true, ..l };
        return Fed {
            line: next,
            ended: None,
        };
    }
    let next = push(l, b);
    Fed {
        line: next,
        ended: None,
    }
}

// The command of the last line, where the input ends without CRLF; None: no line is left.
pub fn finish(line: Line) -> Option<Command>
    ensures { result ≡ finished line }
{
    let last = settle(line);
    if last.count == 0 {
        return None;
    }
    let c = held(last);
    Some(c)
}
