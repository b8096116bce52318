//! Heaps to begin with.
ghost use Rattle.std.specs.Prelude.{◌≡◌, ◌+◌, ◌*◌, ◌^◌, ◌<◌, ◌≤◌, false, Some, IfOk};
ghost use Rattle.hp_base.specs.declared.row.Run.{Run};
ghost use Rattle.hp_heap.specs.Growing.{IsGrownTo};

use super::{BASE, CALLER, PAGE};
use hp_base::{Request, Run, Tag};
use hp_heap::Heap;
use std::alloc::{AllocError, Global};

pub const SMALL_PAGE: u64 = 0x4_0000;

/// A heap of socket 0 with a page of 2M at 0x100000000, and room for some calls.
pub fn one_page(alloc: Global) -> Result<Heap, AllocError> {
    first_page(alloc)
}

// A heap of socket 0 with a page of 2M at 0x100000000, and what is known of it where another page comes.
fn first_page(alloc: Global) -> Result<Heap, AllocError>
    ensures spare { IfOk result (λ heap. 16 ≤ heap.spare) }
    ensures grown { IfOk result (λ heap.
        IsGrownTo (record { list = 0; first = 0; count = 1; addr = BASE; page = PAGE; socket = 0 }) heap.plain) }
{
    let mut heap = Heap::socket(alloc, 0, 0);
    heap.reserve(24)?;
    grow(&mut heap, 0);
    Ok(heap)
}

/// One with three pages of 2M.
pub fn three_pages(alloc: Global) -> Result<Heap, AllocError> {
    let mut heap = first_page(alloc)?;
    grow(&mut heap, 1);
    grow(&mut heap, 2);
    Ok(heap)
}

/// One with two pages of 2M, of which the second came when line 2 had 1,000 bytes of the first. Line 3 has all but the last 64 bytes that
/// the second can hold.
pub fn padded(alloc: Global) -> Option<Heap> {
    let first = request(1000)?;
    let second = request(2_096_960)?;
    let Ok(mut heap) = first_page(alloc) else {
        return None;
    };
    alloc_for(&mut heap, &first, 2);
    grow(&mut heap, 1);
    alloc_for(&mut heap, &second, 3);
    Some(heap)
}

/// One with a page of 256K of a second list behind the page of 2M.
pub fn two_lists(alloc: Global) -> Result<Heap, AllocError> {
    let mut heap = first_page(alloc)?;
    grow_small(&mut heap);
    Ok(heap)
}

// Adds a page of 2M behind the first ones.
fn grow(heap: &mut Heap, first: u32)
    requires few { first < 16 }
    requires spare { 0 < heap.old.spare }
    requires grown { IsGrownTo (record { list = 0; first = 0; count = first; addr = BASE; page = PAGE; socket = 0 }) heap.old.plain }
    ensures grown { IsGrownTo (record { list = 0; first = 0; count = first + 1; addr = BASE; page = PAGE; socket = 0 }) heap.new.plain }
    ensures spare { heap.new.spare + 1 ≡ heap.old.spare }
{
    let run = Run {
        list: 0,
        first,
        count: 1,
        addr: BASE + u64::from(first) * PAGE,
        page: PAGE,
        socket: 0,
    };
    heap.add_run(CALLER, &run);
}

// Adds a page of 256K of a second list behind a page of 2M.
fn grow_small(heap: &mut Heap)
    requires spare { 0 < heap.old.spare }
    requires grown { IsGrownTo (record { list = 0; first = 0; count = 1; addr = BASE; page = PAGE; socket = 0 }) heap.old.plain }
{
    let run = Run {
        list: 1,
        first: 0,
        count: 1,
        addr: BASE + PAGE,
        page: SMALL_PAGE,
        socket: 0,
    };
    heap.add_run(CALLER, &run);
}

// A request for so many bytes.
fn request(size: u64) -> Option<Request> {
    Request::new(size, 0, 0, 0).ok()
}

// Allocates for the line with that number.
fn alloc_for(heap: &mut Heap, req: &Request, line: u32)
    requires { 0 < heap.old.spare }
    ensures grown { (run : Run) → IsGrownTo run heap.old.plain → IsGrownTo run heap.new.plain }
    ensures spare { heap.old.spare ≤ heap.new.spare + 1 }
{
    heap.alloc(CALLER, req, tag_of(line));
}

/// The tag of the line with that number.
pub fn tag_of(line: u32) -> Tag
    ensures { result ≡ record { who = 0; zone = false; number = line } }
{
    Tag {
        who: 0,
        zone: false,
        number: line,
    }
}
