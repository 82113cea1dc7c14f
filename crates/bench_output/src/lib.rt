// The output lines of the bench program.
#![tactic(auto)]

ghost use Rattle.std.specs.Prelude.{◌+◌, ◌≤◌, ◌≡◌, length};
ghost use Rattle.std.proofs.lemmas.List.Edits.{sets};
ghost use Rattle.decimals.specs.Digits.{most_digits};
ghost use Rattle.bench_output.specs.Output.{line_room, field_text, output_line};

use decimals::put_number;
use texts::{COMMA, CR, LF};

// The program takes no memory while it runs: a line is put into a buffer that is lent, from a place on, and answers where it ends.

// The bytes of a buffer for one line: three numbers of at most 20 digits, two commas, CR and LF.
pub const LINE_ROOM: usize = 64;

// Writes the decimal digits of n and a comma from `at`, and answers where they end.
fn put_field(buf: &mut [u8], at: usize, n: u64) -> usize
    requires { at + most_digits + 1 ≤ length buf.old }
    ensures { (result ≡ at + length (field_text n)) × (result ≤ at + most_digits + 1) × (buf.new ≡ sets buf.old at (field_text n)) }
{
    let end = put_number(buf, at, n);
    buf[end] = COMMA;
    end + 1
}

// Writes an output line from `at`, and answers where it ends.
pub fn put_line(buf: &mut [u8], at: usize, line: u64, answer: u32, value: u32) -> usize
    requires { at + line_room ≤ length buf.old }
    ensures { (result ≡ at + length (output_line line answer value)) × (buf.new ≡ sets buf.old at (output_line line answer value)) }
{
    let a = put_field(buf, at, line);
    let b = put_field(buf, a, answer as u64);
    let c = put_number(buf, b, value as u64);
    buf[c] = CR;
    buf[c + 1] = LF;
    c + 2
}
