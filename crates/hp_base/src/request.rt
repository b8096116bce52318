ghost use Rattle.std.specs.Prelude.{◌≡◌, ◌^◌, ◌<◌, ◌&&◌, IfOk, IsTrue, nat_le};
ghost use Rattle.std.specs.Int.{is_power_of_two};
ghost use Rattle.std.specs.Result.{result_err};
ghost use Rattle.hp_base.specs.Round.{ceil_of, fitting};
ghost use Rattle.hp_base.specs.Requests.{IsAccepted, refusal_of, rounded_size, raised_align, is_align, is_bound, is_too_large, bytes_asked};

use crate::page_size::GREATEST_PAGE;
use crate::round::{HEADER, LINE, align_ceil, round_up, round64};

/// Why a request is refused, in the order in which it is judged. After what rte_malloc_socket and
/// rte_memzone_reserve_bounded refuse; the rule of overflow is own.
#[derive(Clone, Copy, PartialEq, Eq)]
pub enum BadRequest {
    /// The size is 0.
    Zero,
    /// The bytes, rounded up, pass 2^64 - 1.
    Overflow,
    /// The alignment is neither 0 nor a power of two.
    Align,
    /// The bound is neither 0 nor a power of two of at least the rounded size.
    Bound,
}

/// An accepted request for memory: `size` is whole cache lines, `align` a power of two of at least one, both in
/// bytes; the data lie in one block of `bound` bytes, where that is not 0. `flags` name page sizes. After
/// rte_malloc_socket, and the bounds and flags of rte_memzone_reserve_bounded.
#[derive(Clone, Copy, PartialEq, Eq)]
pub struct Request {
    pub size: u64,
    pub align: u64,
    pub bound: u64,
    pub flags: u32,
    pub ghost accepted: { IsAccepted size align bound },
}

impl Request {
    /// The request for `size` bytes. An alignment of 0 means a cache line, a bound of 0 none. After rte_malloc_socket
    /// and rte_memzone_reserve_bounded; the rule of overflow is own.
    pub fn new(size: u64, align: u64, bound: u64, flags: u32) -> Result<Request, BadRequest>
        ensures refused { result_err result ≡ refusal_of size align bound }
        ensures size { IfOk result (λ request. request.size ≡ rounded_size size) }
        ensures align { IfOk result (λ request. request.align ≡ raised_align align) }
        ensures bound { IfOk result (λ request. request.bound ≡ bound) }
        ensures flags { IfOk result (λ request. request.flags ≡ flags) }
    {
        if size == 0 {
            return Err(BadRequest::Zero);
        }
        let Some(size) = round64(size) else {
            return Err(BadRequest::Overflow);
        };
        if overflows(size, align) {
            return Err(BadRequest::Overflow);
        }
        if !is_align(align) {
            return Err(BadRequest::Align);
        }
        if !is_bound(size, bound) {
            return Err(BadRequest::Bound);
        }
        Ok(Request {
            size,
            align: align.max(LINE),
            bound,
            flags,
        })
    }
}

fn is_align(align: u64) -> bool
    ensures { result ≡ is_align align }
{
    align == 0 || align.is_power_of_two()
}

fn is_bound(size: u64, bound: u64) -> bool
    ensures { result ≡ is_bound size bound }
{
    bound == 0 || (bound.is_power_of_two() && size <= bound)
}

// Whether the bytes that a rounded size takes at an alignment pass 64 bits.
fn overflows(size: u64, align: u64) -> bool
    requires { size < 2 ^ 64 }
    ensures { result ≡ (is_align align && nat_le (2 ^ 64) (bytes_asked size (raised_align align))) }
{
    is_align(align) && bytes_asked(size, align.max(LINE)).is_none()
}

fn bytes_asked(size: u64, align: u64) -> Option<u64>
    requires { IsTrue (is_power_of_two align) }
    ensures { result ≡ fitting (bytes_asked size align) }
{
    round_up(align_ceil(size, align)?.checked_add(HEADER)?, GREATEST_PAGE)
}
