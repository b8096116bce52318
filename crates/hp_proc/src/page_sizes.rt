//! The page sizes for which memory is asked, and what flags say of them.
ghost use Rattle.std.specs.Prelude.{◌≡◌, ◌≤◌, ◌==◌, ◌++◌, ◌&&◌, ℕ, length, not, IfOk, OnOk};
ghost use Rattle.std.specs.List.{filter, position_or_len};
ghost use Rattle.hp_base.specs.Pages.{page_sizes};
ghost use Rattle.hp_base.specs.Flags.{names_page};
ghost use Rattle.hp_proc.specs.Allocating.{first_flags, with_hint, without_hint};
ghost use Rattle.hp_proc.specs.Heaps.{has_pool, page_sizes_for};

use hp_base::{HINT, PAGE_SIZES, PoolLine, is_hint, names_page, names_pages};
use std::alloc::{AllocError, Global};

// Whether a pool line names the socket and the page size.
fn has_pool(pools: &[PoolLine], socket: u32, page: u64) -> bool
    ensures { result ≡ has_pool pools.now socket page }
{
    pools
        .iter()
        .any(|line| line.socket == socket && line.page == page)
}

// The place of the first pool line that names the socket, or that after all.
fn first_of(pools: &[PoolLine], socket: u32) -> usize
    ensures place { result ≡ position_or_len (λ line. line.socket == socket) pools.now }
    ensures within { result ≤ length pools.now }
{
    let place = pools.iter().position(|line| line.socket == socket);
    place.unwrap_or(pools.len())
}

// The pool lines from the first that names the socket on. Lines before it name no page size of that socket.
fn lines_from(pools: &[PoolLine], socket: u32) -> &[PoolLine]
    ensures { (page : ℕ) → has_pool result.now socket page ≡ has_pool pools.now socket page }
{
    let first = first_of(pools, socket);
    &pools[first..]
}

// Flags without the bit by which their page sizes are a hint alone.
fn without_hint(flags: u32) -> u32
    ensures { result ≡ without_hint flags }
{
    if is_hint(flags) { flags - HINT } else { flags }
}

// Flags with it.
fn with_hint(flags: u32) -> u32
    ensures { result ≡ with_hint flags }
{
    if is_hint(flags) { flags } else { flags + HINT }
}

/// The flags of the first search in a heap: page sizes are kept to in that of a socket, and are a hint in external memory. Own.
pub(crate) fn first_flags(serves: Option<u32>, flags: u32) -> u32
    ensures { result ≡ first_flags serves flags }
{
    match serves {
        Some(_socket) => without_hint(flags),
        None => with_hint(flags),
    }
}

/// The page sizes for which memory is asked on a socket, in their order: those that the flags name, ascending; then the socket's others,
/// ascending, where the flags name none or are a hint alone. After alloc_more_mem_on_socket of malloc_heap.c.
pub(crate) fn page_sizes_for(
    alloc: Global,
    pools: &[PoolLine],
    socket: u32,
    flags: u32,
) -> Result<Vec<u64>, AllocError>
    ensures { IfOk result (λ pages. pages.items ≡ page_sizes_for pools.now socket flags) }
{
    let mut pages = Vec::with_capacity(alloc, PAGE_SIZES.len())?;
    push_named(&mut pages, flags)?;
    if is_hint(flags) || !names_pages(flags) {
        push_others(&mut pages, pools, socket, flags)?;
    }
    Ok(pages)
}

// Adds the page sizes that flags name.
fn push_named(pages: &mut Vec<u64>, flags: u32) -> Result<(), AllocError>
    ensures { OnOk result (pages.new.items ≡ pages.old.items ++ filter (names_page flags) page_sizes) }
{
    for page in PAGE_SIZES {
        if names_page(flags, page) {
            pages.push(page)?;
        }
    }
    Ok(())
}

// Adds the page sizes of a socket that flags don't name.
fn push_others(
    pages: &mut Vec<u64>,
    pools: &[PoolLine],
    socket: u32,
    flags: u32,
) -> Result<(), AllocError>
    ensures { OnOk result (pages.new.items
        ≡ pages.old.items ++ filter (λ page. has_pool pools.now socket page && not (names_page flags page)) page_sizes) }
{
    let own = lines_from(pools, socket);
    for page in PAGE_SIZES {
        if is_other(own, socket, flags, page) {
            pages.push(page)?;
        }
    }
    Ok(())
}

// Whether a socket has a page size that flags don't name.
fn is_other(pools: &[PoolLine], socket: u32, flags: u32, page: u64) -> bool
    ensures { result ≡ (has_pool pools.now socket page && not (names_page flags page)) }
{
    has_pool(pools, socket, page) && !names_page(flags, page)
}
