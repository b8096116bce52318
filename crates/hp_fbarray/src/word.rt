//! One word of 64 places: bit k is 1 where place k is used.
ghost use Rattle.std.specs.Prelude.{◌≡◌, ◌<◌};
ghost use Rattle.hp_fbarray.specs.Words.{is_bit, HasOnesAt, IsNextBit, SetsBit};

// Whether a bit of the word is 1.
pub(crate) fn is_bit(word: u64, bit: u32) -> bool
    requires { bit < 64 }
    ensures { result ≡ is_bit word bit }
{
    (word >> bit) & 1 == 1
}

// The word with one bit 1, or 0.
pub(crate) fn with_bit(word: u64, bit: u32, used: bool) -> u64
    requires { bit < 64 }
    ensures { SetsBit word result bit used }
{
    let one: u64 = 1 << bit;
    if used { word | one } else { word & !one }
}

// The word that has a 1 where the word is used, or where it is clear.
fn ones_at(word: u64, used: bool) -> u64
    ensures { HasOnesAt word used result }
{
    if used { word } else { !word }
}

// The first bit from `bit` on that is 1, or that is 0, and 64 where there is none.
pub(crate) fn next_bit(word: u64, bit: u32, used: bool) -> u32
    requires { bit < 64 }
    ensures { IsNextBit word bit used result }
{
    let rest = ones_at(word, used) >> bit;
    if rest == 0 {
        64
    } else {
        bit + rest.trailing_zeros()
    }
}
