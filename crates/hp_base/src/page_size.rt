ghost use Rattle.std.specs.Prelude.{◌≡◌, ◌*◌, ◌^◌, ◌<◌, ◌≤◌, IsTrue};
ghost use Rattle.hp_base.specs.Pages.{is_page_size, pages_of, HoldsRequest};

use crate::request::Request;
use crate::round::{HEADER, align_ceil};

/// The sizes of a hugepage, in bytes, ascending: 256K, 2M, 16M, 256M, 512M, 1G, 4G and 16G. Pools and their segment
/// lists have pages of these sizes alone; external memory may have others. After DPDK's hugepage sizes on Linux, as
/// the RTE_MEMZONE_ flags of rte_memzone name them.
pub const PAGE_SIZES: [u64; 8] = [
    0x4_0000,
    0x20_0000,
    0x100_0000,
    0x1000_0000,
    0x2000_0000,
    0x4000_0000,
    0x1_0000_0000,
    0x4_0000_0000,
];

/// The greatest page size, in bytes. What is asked for a request, rounded up to it, has to be a number of 64 bits, and
/// pages of external memory are no greater. After RTE_MEMZONE_16GB; what it bounds is own.
pub const GREATEST_PAGE: u64 = PAGE_SIZES[7];

/// Whether a page of `page` bytes has one of the eight hugepage sizes, `PAGE_SIZES`. After the RTE_MEMZONE_ flags of
/// rte_memzone.
pub fn is_page_size(page: u64) -> bool
    ensures { result ≡ is_page_size page }
{
    PAGE_SIZES.contains(&page)
}

/// The number of pages of `page` bytes that are asked for a request: those that its rounded size and one header
/// take. A request with a bound, or with an alignment above the page, may have no place in them. After
/// try_expand_heap of malloc_heap.c.
pub fn pages_for(req: &Request, page: u64) -> u64
    requires { IsTrue (is_page_size page) }
    ensures number { result ≡ pages_of req.now page }
    ensures enough { req.now.bound ≡ 0 → req.now.align ≤ page → HoldsRequest req.now page result }
    ensures bytes { result * page < 2 ^ 64 }
{
    let data = align_ceil(req.size, req.align).unwrap();
    (data + HEADER).div_ceil(page)
}
