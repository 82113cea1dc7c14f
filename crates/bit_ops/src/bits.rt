// Bits of a word: one of them, those of a map of slots, and all of them as what a comparison gives.
ghost use Rattle.std.specs.Prelude.{◌≡◌, ◌^◌, ◌<◌, eqb, leb};
ghost use Rattle.words.specs.Bits.{with_bit, without_bit, slots_set};
ghost use Rattle.pages.specs.Geometry.{slot_count};

// Every bit of a word.
pub const ALL_ONES: u32 = 0xffff_ffff;

// The word with bit t only.
pub fn mask_of(t: usize) -> u32
    requires { t < 32 }
    ensures { result ≡ 2 ^ t }
{
    1u32 << t
}

// m with bit k set.
pub fn with_bit(m: u32, k: usize) -> u32
    requires { k < 32 }
    ensures { result ≡ with_bit m k }
{
    m | mask_of(k)
}

// m with bit k clear: the bit is set first, so that taking it away borrows from no other.
pub fn without_bit(m: u32, k: usize) -> u32
    requires { k < 32 }
    ensures { result ≡ without_bit m k }
{
    let b = mask_of(k);
    (m | b) - b
}

// The number of slots set in a map.
pub fn slots_set(m: u32) -> u32
    requires { m < 2 ^ slot_count }
    ensures { result ≡ slots_set m }
{
    u32::count_ones(m)
}

// All bits where x is above top, and none elsewhere: what a comparison of four words at a time gives.
pub fn above(x: u32, top: u32) -> u32
    ensures { eqb result 0 ≡ leb x top }
{
    if top < x { ALL_ONES } else { 0 }
}
