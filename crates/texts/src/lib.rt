// Texts as bytes: the same text, and the fields of a line.
#![tactic(auto)]

ghost use Rattle.std.specs.Prelude.{◌≡◌};
ghost use Rattle.texts.specs.Same.{same};
ghost use Rattle.texts.specs.Parts.{field_length};

// What parts two fields.
pub const COMMA: u8 = b',';

// What ends a line: CR, then LF.
pub const CR: u8 = b'\r';

pub const LF: u8 = b'\n';

// Whether two texts have the same bytes.
pub fn same(a: &[u8], b: &[u8]) -> bool
    ensures { result ≡ same a.now b.now }
{
    a == b
}

// How many bytes stand before the first comma.
pub fn field_len(s: &[u8]) -> usize
    ensures { result ≡ field_length s.now }
{
    s.iter().position(|&b| b == COMMA).unwrap_or(s.len())
}
