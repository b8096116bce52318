ghost use Rattle.std.specs.Prelude.{◌≡◌, ◌<◌, MatchOption, IsTrue};
ghost use Rattle.std.specs.Int.{is_power_of_two};
ghost use Rattle.hp_base.specs.Place.{IsPlace, HasNoPlace, place_of, lowered_end, is_one_block, is_roomy, last_address};

use crate::request::Request;
use crate::round::{HEADER, align_floor};

/// The address of the data of a request in the range of a heap from `start` to `end`: the greatest one that is at its
/// alignment, with a header before it, and in one block of its bound. It is `None` exactly where there is none. After
/// elem_start_pt of rte_malloc.
pub fn place(start: u64, end: u64, req: &Request) -> Option<u64>
    requires { start < end }
    ensures place { MatchOption result (HasNoPlace start end req.now) (IsPlace start end req.now) }
    ensures number { result ≡ place_of start end req.now }
{
    let last = last_address(lowered_end(end, req), req.size, req.align);
    if is_roomy(start, end, req, last) {
        Some(last)
    } else {
        None
    }
}

// The end, or the begin of the last block of the bound where the data before the end would pass it.
fn lowered_end(end: u64, req: &Request) -> u64
    ensures { result ≡ lowered_end end req.now }
{
    let last = last_address(end, req.size, req.align);
    if is_one_block(req.bound, last, end) {
        end
    } else {
        end / req.bound * req.bound
    }
}

fn last_address(end: u64, size: u64, align: u64) -> u64
    requires { IsTrue (is_power_of_two align) }
    ensures { result ≡ last_address end size align }
{
    align_floor(end.saturating_sub(size), align)
}

fn is_one_block(bound: u64, from: u64, to: u64) -> bool
    ensures { result ≡ is_one_block bound from to }
{
    bound == 0 || from / bound == to.saturating_sub(1) / bound
}

fn is_roomy(start: u64, end: u64, req: &Request, address: u64) -> bool
    ensures { result ≡ is_roomy start end req.now address }
{
    start <= address
        && address - start >= HEADER
        && address <= end
        && end - address >= req.size
        && is_one_block(req.bound, address, address + req.size)
}
