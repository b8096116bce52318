ghost use Rattle.std.specs.Prelude.{◌≡◌, ◌<◌, IsTrue};
ghost use Rattle.std.specs.Int.{is_power_of_two};
ghost use Rattle.hp_base.specs.Round.{floor_of, ceil_of, fitting};

/// A cache line, in bytes: the unit of sizes and alignments. After RTE_CACHE_LINE_SIZE where that is 64.
pub const LINE: u64 = 64;

/// The header of an element, in bytes. After MALLOC_ELEM_HEADER_LEN where a cache line has 64 bytes.
pub const HEADER: u64 = 128;

/// `n` bytes rounded down to a multiple of `unit`, a power of two. After RTE_ALIGN_FLOOR.
#[tactic(auto, using(crate::proofs::Powers::floor_by_mask))]
pub fn align_floor(n: u64, unit: u64) -> u64
    requires { IsTrue (is_power_of_two unit) }
    ensures { result ≡ floor_of n unit }
{
    n - (n & (unit - 1))
}

/// `n` bytes rounded up to a multiple of `unit`, a power of two. It is `None` exactly where that is above
/// 2^64 - 1. After RTE_ALIGN_CEIL.
pub fn align_ceil(n: u64, unit: u64) -> Option<u64>
    requires { IsTrue (is_power_of_two unit) }
    ensures { result ≡ fitting (ceil_of n unit) }
{
    round_up(n, unit)
}

/// `n` bytes rounded up to whole cache lines. It is `None` exactly where that is above 2^64 - 1. After
/// RTE_CACHE_LINE_ROUNDUP.
pub fn round64(n: u64) -> Option<u64>
    ensures { result ≡ fitting (ceil_of n LINE) }
{
    round_up(n, LINE)
}

pub(crate) fn round_up(n: u64, unit: u64) -> Option<u64>
    requires { 0 < unit }
    ensures { result ≡ fitting (ceil_of n unit) }
{
    n.div_ceil(unit).checked_mul(unit)
}
