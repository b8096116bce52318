//! What is done to a heap, one step after another, with what has to come of each.
ghost use Rattle.std.specs.Prelude.{◌≡◌, ◌%◌, ◌^◌, ◌<◌, ◌≤◌};

use super::CALLER;
use super::heaps::tag_of;
use super::looks::{Look, is_so};
use super::sums::sums_up;
use hp_base::{Caller, Name, Request, Run, Stats, Tag};
use hp_heap::{FreeFault, Heap};
use std::alloc::AllocError;
use std::test::Fail;

/// One step, with what has to come of it. A line is named by its number.
#[derive(Clone, Copy)]
pub enum Step {
    // So many bytes for a line, with nothing else, with an alignment, with a bound or with flags: the data lies there.
    Alloc(u64, u32, Option<u64>),
    Aligned(u64, u64, u32, Option<u64>),
    Within(u64, u64, u32, Option<u64>),
    OnPages(u64, u32, u32, Option<u64>),
    // So many bytes for a line of that participant: the data lies there.
    By(u8, u64, u32, Option<u64>),
    // So many bytes for a memzone: the data lies there.
    Reserve(u64, Tag, u64),
    // The element with its data there is freed, or refused to be.
    Free(u64),
    Refuse(u64, FreeFault),
    // The memzone of a line is looked up, and freed as one.
    FreeZone(u32),
    // What pages of the free element there are cut away.
    Cut(u64, Option<Run>),
    // The element of a line is looked up, and gets so many bytes, or has not so many.
    Resize(u32, u64),
    TooLarge(u32, u64),
    // The element with that tag has its data there.
    Find(Tag, Option<u64>),
    // The statistics that are asked for.
    Tell(Stats),
    // It gets a name and a socket number, and loses both.
    Name(&'static str, u32),
    Unname,
    // So many calls are made at random, after each of which the statistics are the sums over the elements.
    SumUp(usize),
    // What is seen of the heap.
    See(Look),
}

// The step at that place, counted from 0, came out otherwise.
#[derive(Debug, Drop)]
struct Otherwise {
    place: usize,
}

/// Each step comes out as it stands, from that heap on.
pub fn play(heap: Result<Heap, AllocError>, steps: &[Step]) -> Result<(), Fail> {
    let mut heap = heap?;
    go_on(&mut heap, steps)
}

fn go_on(heap: &mut Heap, steps: &[Step]) -> Result<(), Fail> {
    for place in 0..steps.len() {
        if !perform(heap, steps[place]) {
            return Err(Otherwise { place }.into());
        }
    }
    Ok(())
}

// Whether a step came out as it stands.
fn perform(heap: &mut Heap, step: Step) -> bool {
    match step {
        Step::Alloc(size, line, at) => alloc(heap, size, 0, 0, 0, tag_of(line)) == at,
        Step::Aligned(size, align, line, at) => alloc(heap, size, align, 0, 0, tag_of(line)) == at,
        Step::Within(size, bound, line, at) => alloc(heap, size, 0, bound, 0, tag_of(line)) == at,
        Step::OnPages(size, flags, line, at) => alloc(heap, size, 0, 0, flags, tag_of(line)) == at,
        Step::By(participant, size, line, at) => alloc_by(heap, participant, size, line) == at,
        Step::Reserve(size, tag, at) => alloc(heap, size, 0, 0, 0, tag) == Some(at),
        Step::Free(addr) => free(heap, addr) == Some(Ok(())),
        Step::Refuse(addr, fault) => free(heap, addr) == Some(Err(fault)),
        Step::FreeZone(line) => free_zone(heap, line),
        Step::Cut(addr, run) => cut(heap, addr) == Some(run),
        Step::Resize(line, size) => try_resize(heap, line, size) == Some(true),
        Step::TooLarge(line, size) => try_resize(heap, line, size) == Some(false),
        Step::Find(tag, at) => find(heap, tag) == Some(at),
        Step::Tell(stats) => stats_of(heap) == Some(stats),
        Step::Name(text, socket) => set_name(heap, text, socket),
        Step::Unname => clear_name(heap),
        Step::SumUp(calls) => sums_up(heap, calls),
        Step::See(look) => is_so(heap, look),
    }
}

// Allocates for a tag. Each of these does nothing where there is no room for its calls.
pub fn alloc(
    heap: &mut Heap,
    size: u64,
    align: u64,
    bound: u64,
    flags: u32,
    tag: Tag,
) -> Option<u64> {
    let req = Request::new(size, align, bound, flags).ok()?;
    if heap.spare() == 0 {
        return None;
    }
    heap.alloc(CALLER, &req, tag)
}

fn alloc_by(heap: &mut Heap, participant: u8, size: u64, line: u32) -> Option<u64> {
    let req = Request::new(size, 0, 0, 0).ok()?;
    if heap.spare() == 0 {
        return None;
    }
    let caller = Caller {
        participant,
        number: 1,
    };
    heap.alloc(caller, &req, tag_of(line))
}

pub fn free(heap: &mut Heap, addr: u64) -> Option<Result<(), FreeFault>> {
    if heap.spare() == 0 {
        return None;
    }
    Some(heap.free(CALLER, addr))
}

// Whether the memzone of a line was found, and freed.
fn free_zone(heap: &mut Heap, line: u32) -> bool {
    if heap.spare() < 2 {
        return false;
    }
    let tag = Tag {
        who: 0,
        zone: true,
        number: line,
    };
    match heap.find(CALLER, tag) {
        None => false,
        Some(addr) => {
            heap.free_zone(CALLER, addr);
            true
        }
    }
}

fn cut(heap: &mut Heap, addr: u64) -> Option<Option<Run>> {
    if heap.spare() == 0 {
        return None;
    }
    Some(heap.cut_pages(CALLER, addr))
}

// Resizes the element of a line, where it is found, and a heap may be asked for so many bytes.
fn try_resize(heap: &mut Heap, line: u32, size: u64) -> Option<bool> {
    if heap.spare() < 2 {
        return None;
    }
    if size == 0 {
        return None;
    }
    if size % 64 != 0 {
        return None;
    }
    if size > 1 << 63 {
        return None;
    }
    resize(heap, line, size)
}

fn resize(heap: &mut Heap, line: u32, size: u64) -> Option<bool>
    requires spare { 2 ≤ heap.old.spare }
    requires some { 0 < size }
    requires lines { size % 64 ≡ 0 }
    requires most { size ≤ 2 ^ 63 }
{
    let addr = heap.find(CALLER, tag_of(line))?;
    Some(heap.resize(CALLER, addr, size))
}

fn find(heap: &mut Heap, tag: Tag) -> Option<Option<u64>> {
    if heap.spare() == 0 {
        return None;
    }
    Some(heap.find(CALLER, tag))
}

fn stats_of(heap: &mut Heap) -> Option<Stats> {
    if heap.spare() == 0 {
        return None;
    }
    Some(heap.stats(CALLER))
}

fn set_name(heap: &mut Heap, text: &str, socket: u32) -> bool {
    let Some(name) = Name::new(text.as_bytes()) else {
        return false;
    };
    if heap.spare() == 0 {
        return false;
    }
    heap.set_name(CALLER, name, socket);
    true
}

fn clear_name(heap: &mut Heap) -> bool {
    if heap.spare() == 0 {
        return false;
    }
    heap.clear_name(CALLER);
    true
}
