// Numbers as decimal digits, read and written.
#![tactic(auto)]

ghost use Rattle.std.specs.Prelude.{◌+◌, ◌≤◌, ◌≡◌, length};
ghost use Rattle.std.proofs.lemmas.List.Edits.{sets};
ghost use Rattle.decimals.specs.Digits.{most_digits};
ghost use Rattle.decimals.specs.Numbers.{number_in};
ghost use Rattle.decimals.specs.Decimal.{decimal};

// Numbers are decimal.
const BASE: u64 = 10;

// The digit '0'.
const ZERO: u8 = b'0';

// The largest number that is read: it has 32 bits. A constant, for the edit of it: where each digit's number is converted by `try_from`,
// no edit says that a number of 33 bits is cut, and that alone.
const LARGEST: u64 = 4294967295;

// The number that a text writes.
#[tactic(auto, using(crate::proofs::NumberLaws::number_empty, crate::proofs::NumberLaws::number_leads, crate::proofs::NumberLaws::number_starts))]
pub fn number_of(s: &[u8]) -> Option<u32>
    ensures { result ≡ number_in s.now }
{
    if s.is_empty() {
        return None;
    }
    if s[0] == ZERO && 1 < s.len() {
        return None;
    }
    let mut n: u64 = 0;
    for &b in s {
        if !b.is_ascii_digit() {
            return None;
        }
        n = BASE * n + u64::from(b - ZERO);
        if LARGEST < n {
            return None;
        }
    }
    Some(n as u32)
}

// Writes the decimal digits of n from `at`, and answers where they end: the contract is of the bytes, which `write!` does not tell.
pub fn put_number(buf: &mut [u8], at: usize, n: u64) -> usize
    requires { at + length (decimal n) ≤ length buf.old }
    ensures { (result ≡ at + length (decimal n)) × (result ≤ at + most_digits) × (buf.new ≡ sets buf.old at (decimal n)) }
{
    if n < BASE {
        buf[at] = ZERO + (n as u8);
        return at + 1;
    }
    let end = put_number(buf, at, n / BASE);
    buf[end] = ZERO + ((n % BASE) as u8);
    end + 1
}
