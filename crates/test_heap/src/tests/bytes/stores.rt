//! A store for the addresses of a socket's heap.
ghost use Rattle.std.specs.Prelude.{◌≡◌, IfOk, Some};
ghost use Rattle.hp_heap.specs.Growing.{after_grow};
ghost use Rattle.hp_heap.specs.PlainHeap.{opening_heap};
ghost use Rattle.hp_bytes.specs.PlainSession.{session_run};

use hp_base::{Caller, Request, Run, Tag};
use hp_bytes::{ByteFault, Store, StoreFault};
use hp_heap::Heap;
use std::alloc::{AllocError, Global};
use std::test::Fail;

const BASE: u64 = 0x1_0000_0000;

const PAGE: u64 = 0x20_0000;

const CALLER: Caller = Caller {
    participant: 0,
    number: 1,
};

const TAG: Tag = Tag {
    who: 0,
    zone: false,
    number: 1,
};

// Four pages.
const RUN: Run = Run {
    list: 0,
    first: 0,
    count: 4,
    addr: BASE,
    page: PAGE,
    socket: 0,
};

// The data of the first two elements, of 128 bytes and 64.
const A: u64 = BASE + 4 * PAGE - 128;

const B: u64 = A - 128 - 64;

#[derive(Clone, Copy)]
enum Step {
    /// An element of so many bytes is allocated by the heap alone, with its data at the address, or not.
    Alloc(u64, Option<u64>),
    /// All bytes of the element become this one.
    Fill(u64, u8),
    /// The element has so many bytes, all of them this one.
    Holds(u64, usize, u8),
    /// The first bytes of the second of two become those of the first, as many as both have.
    Over(u64, u64),
    /// The element's data are not lent.
    No(u64, ByteFault),
    /// Those of the two are not.
    NoTwo(u64, u64, ByteFault),
    /// The element is freed.
    Free(u64),
}

use Step::{Alloc, Fill, Free, Holds, No, NoTwo, Over};

const fn missing(addr: u64) -> ByteFault {
    ByteFault::NotAnElement { addr }
}

fn allocated(heap: &mut Heap, size: u64) -> Option<u64> {
    let request = Request::new(size, 0, 0, 0).ok()?;
    heap.reserve(1).ok()?;
    if heap.spare() == 0 {
        return None;
    }
    heap.alloc(CALLER, &request, TAG)
}

fn fill(store: &mut Store, heap: &Heap, addr: u64, byte: u8) -> bool {
    match store.bytes_mut(heap, addr) {
        Ok(data) => {
            data.fill(byte);
            true
        }
        Err(_) => false,
    }
}

fn holds(store: &Store, heap: &Heap, addr: u64, len: usize, byte: u8) -> bool {
    match store.bytes(heap, addr) {
        Ok(data) => data.len() == len && data.iter().all(|b| *b == byte),
        Err(_) => false,
    }
}

fn over(store: &mut Store, heap: &Heap, a: u64, b: u64) -> bool {
    match store.two_mut(heap, a, b) {
        Ok((source, target)) => {
            let n = source.len().min(target.len());
            let (front, _rest) = target.split_at_mut(n);
            front.copy_from_slice(&source[..n]);
            true
        }
        Err(_) => false,
    }
}

fn refuses(store: &mut Store, heap: &Heap, addr: u64, fault: ByteFault) -> bool {
    store.bytes(heap, addr).err() == Some(fault) && store.bytes_mut(heap, addr).err() == Some(fault)
}

fn refuses_two(store: &mut Store, heap: &Heap, a: u64, b: u64, fault: ByteFault) -> bool {
    store.two_mut(heap, a, b).err() == Some(fault)
}

fn free(heap: &mut Heap, addr: u64) -> bool {
    heap.reserve(1).is_ok() && heap.spare() > 0 && heap.free(CALLER, addr).is_ok()
}

fn do_step(store: &mut Store, heap: &mut Heap, step: &Step) -> bool {
    match step {
        Alloc(size, wanted) => allocated(heap, *size) == *wanted,
        Fill(addr, byte) => fill(store, heap, *addr, *byte),
        Holds(addr, len, byte) => holds(store, heap, *addr, *len, *byte),
        Over(a, b) => over(store, heap, *a, *b),
        No(addr, fault) => refuses(store, heap, *addr, *fault),
        NoTwo(a, b, fault) => refuses_two(store, heap, *a, *b, *fault),
        Free(addr) => free(heap, *addr),
    }
}

// A heap of the four pages.
fn heap_of_pages(alloc: Global) -> Result<Heap, AllocError>
    ensures { IfOk result (λ heap. heap.plain ≡ after_grow session_run (opening_heap 0 (Some 0))) }
{
    let mut heap = Heap::socket(alloc, 0, 0);
    heap.reserve(1)?;
    heap.add_run(CALLER, &RUN);
    Ok(heap)
}

// The step at that place, counted from 0, came out otherwise.
#[derive(Debug, Drop)]
struct Otherwise {
    place: usize,
}

// Each step comes out as it stands, over a heap of the pages and a store with so many bytes.
fn play(alloc: Global, len: usize, steps: &[Step]) -> Result<(), Fail> {
    let mut heap = heap_of_pages(alloc)?;
    let Ok(mut store) = Store::new(alloc, BASE, len) else {
        return Err(Fail::new("no store"));
    };
    for (place, step) in steps.iter().enumerate() {
        if !do_step(&mut store, &mut heap, step) {
            return Err(Fail::from(Otherwise { place }));
        }
    }
    Ok(())
}

const ALL: usize = 4 * PAGE as usize;

#[test]
fn lends_each_element_its_own_bytes(rt: HostRuntime) -> Result<(), Fail> {
    let steps = [
        Alloc(100, Some(A)),
        Alloc(64, Some(B)),
        Holds(A, 128, 0),
        Fill(A, 255),
        Holds(B, 64, 0),
        Fill(B, 7),
        Holds(A, 128, 255),
        Holds(B, 64, 7),
    ];
    play(rt.alloc(), ALL, &steps)
}

// A heap knows nothing of the bytes, and leaves them: `zalloc` is for that. The sessions show it.
#[test]
fn keeps_the_bytes_of_what_is_freed(rt: HostRuntime) -> Result<(), Fail> {
    let steps = [
        Alloc(100, Some(A)),
        Alloc(64, Some(B)),
        Fill(A, 255),
        Fill(B, 7),
        Free(A),
        Alloc(100, Some(A)),
        Holds(A, 128, 255),
        Alloc(4 * PAGE, None),
        Holds(B, 64, 7),
    ];
    play(rt.alloc(), ALL, &steps)
}

#[test]
fn lends_two_at_once(rt: HostRuntime) -> Result<(), Fail> {
    let steps = [
        Alloc(100, Some(A)),
        Alloc(64, Some(B)),
        Fill(A, 1),
        Over(A, B),
        Holds(B, 64, 1),
        Fill(B, 2),
        Over(B, A),
        Holds(B, 64, 2),
    ];
    play(rt.alloc(), ALL, &steps)
}

#[test]
fn lends_no_other_addresses(rt: HostRuntime) -> Result<(), Fail> {
    let steps = [
        No(A, missing(A)),
        Alloc(100, Some(A)),
        No(A - 128, missing(A - 128)),
        No(A + 64, missing(A + 64)),
        No(BASE, missing(BASE)),
        No(BASE + 128, missing(BASE + 128)),
        No(0, missing(0)),
        No(u64::MAX, missing(u64::MAX)),
        NoTwo(A, A, ByteFault::Same { addr: A }),
        NoTwo(5, 5, ByteFault::Same { addr: 5 }),
        NoTwo(B, 5, missing(B)),
        NoTwo(A, B, missing(B)),
        Free(A),
        No(A, missing(A)),
    ];
    play(rt.alloc(), ALL, &steps)
}

// The store ends 64 bytes before the heap does, so it lacks the end of the first element's data, and has the second's.
#[test]
fn lends_nothing_outside_the_store(rt: HostRuntime) -> Result<(), Fail> {
    let mut heap = heap_of_pages(rt.alloc())?;
    let Ok(mut store) = Store::new(rt.alloc(), BASE, ALL - 64) else {
        return Err(Fail::new("no store"));
    };
    let (first, second) = (allocated(&mut heap, 100), allocated(&mut heap, 64));
    assert!(rt; first == Some(A) && second == Some(B));
    let outside = ByteFault::Outside { addr: A };
    assert!(rt; refuses(&mut store, &heap, A, outside));
    assert!(rt; refuses_two(&mut store, &heap, B, A, outside));
    assert!(rt; holds(&store, &heap, B, 64, 0));
    Ok(())
}

#[test]
fn has_a_greatest_size(rt: HostRuntime) {
    let fault = Store::new(rt.alloc(), BASE, 268_435_457).err();
    assert!(rt; fault == Some(StoreFault::TooLarge { limit: 268_435_456 }));
    assert!(rt; Store::new(rt.alloc(), BASE, 0).is_ok());
}

// What two allocations of zeroed data give, and whether the data of the first are 0: one of 100 bytes, and one that has no place.
fn zeroed(alloc: Global) -> Result<(Option<u64>, Option<u64>, bool), Fail> {
    let mut heap = heap_of_pages(alloc)?;
    heap.reserve(2)?;
    let Ok(mut store) = Store::new(alloc, BASE, ALL) else {
        return Err(Fail::new("no store"));
    };
    let (Ok(small), Ok(large)) = (Request::new(100, 0, 0, 0), Request::new(4 * PAGE, 0, 0, 0))
    else {
        return Err(Fail::new("no request"));
    };
    let first = store.zalloc(&mut heap, CALLER, &small, TAG);
    let second = store.zalloc(&mut heap, CALLER, &large, TAG);
    let zeros = holds(&store, &heap, A, 128, 0);
    Ok((first, second, zeros))
}

#[test]
fn zeroes_what_it_allocates(rt: HostRuntime) -> Result<(), Fail> {
    assert!(rt; zeroed(rt.alloc())? == (Some(A), None, true));
    Ok(())
}
