// One line of the bench program's input, and its command.
#![tactic(auto)]

ghost use Rattle.std.specs.Prelude.{◌≡◌, Some};
ghost use Rattle.texts.specs.Parts.{following};
ghost use Rattle.bench_commands.specs.Commands.{and_number, numbers_from, call_of, command_of};

use bench_names::{Command, call_alone, call_four, call_one, call_two};

// The numbers of the fields after a call's name: no call has more than four.
#[derive(Clone, Copy)]
pub enum Numbers {
    Zero,
    One(u32),
    Two(u32, u32),
    Three(u32, u32, u32),
    Four(u32, u32, u32, u32),
}

// The numbers so far, and one more; None: there are four already.
fn and_number(ns: Numbers, x: u32) -> Option<Numbers>
    ensures { result ≡ and_number (Some ns) (Some x) }
{
    match ns {
        Numbers::Zero => Some(Numbers::One(x)),
        Numbers::One(a) => Some(Numbers::Two(a, x)),
        Numbers::Two(a, b) => Some(Numbers::Three(a, b, x)),
        Numbers::Three(a, b, c) => Some(Numbers::Four(a, b, c, x)),
        Numbers::Four(_, _, _, _) => None,
    }
}

// The numbers of the fields that follow: s is empty or starts with a comma.
// None: one is no number, or there are more than four.
fn numbers_of(s: &[u8]) -> Option<Numbers>
    ensures { result ≡ numbers_from (Some Numbers.Zero) (following s.now) }
{
    let mut ns = Numbers::Zero;
    let mut e: usize = 0;
    // A `for` over a `split` is no plainer: the name would be taken off a half-read iterator first.
    while e < s.len() {
        let a = e + 1;
        e = a + texts::field_len(&s[a..]);
        let x = decimals::number_of(&s[a..e])?;
        ns = and_number(ns, x)?;
    }
    Some(ns)
}

// The call of a name with these numbers.
fn call_of(name: &[u8], ns: Option<Numbers>) -> Command
    ensures { result ≡ call_of name.now ns }
{
    match ns {
        Some(Numbers::Zero) => call_alone(name),
        Some(Numbers::One(a)) => call_one(name, a),
        Some(Numbers::Two(a, b)) => call_two(name, a, b),
        Some(Numbers::Four(a, b, c, d)) => call_four(name, a, b, c, d),
        Some(Numbers::Three(_, _, _)) | None => Command::NoCall,
    }
}

// The command of a line, given without its end.
pub fn command_of(line: &[u8]) -> Command
    ensures { result ≡ command_of line.now }
{
    let e = texts::field_len(line);
    let ns = numbers_of(&line[e..]);
    call_of(&line[..e], ns)
}
