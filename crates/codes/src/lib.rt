// How a C function answers: the answer's number times 2^32, plus its value.
#![tactic(auto)]

ghost use Rattle.std.specs.Prelude.{◌≡◌};
ghost use Rattle.codes.specs.Codes.{coded};

use areas::Answer;

// The number that a C function answers. No `From`: it is one way of several to tell an answer.
pub fn code(a: Answer) -> u64
    ensures { result ≡ coded a }
{
    let number = areas::answer_of(a);
    let value = areas::value_of(a);
    4294967296 * (number as u64) + (value as u64)
}
