//! A heap, made by the calls that its users make.
ghost use Rattle.std.specs.Prelude.{◌≡◌, Some, OnOk};
ghost use Rattle.hp_base.specs.declared.row.Run.{Run};
ghost use Rattle.hp_heap.specs.PlainHeap.{opening_heap};
ghost use Rattle.hp_heap.specs.Growing.{IsGrownTo};

use hp_base::{Caller, Request, Run, Tag};
use hp_heap::Heap;
use std::test::Fail;

// A page of 2M of a first list.
const LARGE: Run = Run {
    list: 0,
    first: 0,
    count: 1,
    addr: 0x1_0000_0000,
    page: 0x20_0000,
    socket: 0,
};

// A page of 256K of a second list behind it.
const SMALL: Run = Run {
    list: 1,
    first: 0,
    count: 1,
    addr: 0x1_0020_0000,
    page: 0x4_0000,
    socket: 0,
};

// What an allocation of that line asks for, of an element or of a memzone.
#[derive(Clone, Copy)]
pub struct Wanted {
    pub line: u32,
    pub zone: bool,
    pub size: u64,
    pub align: u64,
    pub bound: u64,
    pub flags: u32,
}

// What a participant does with a heap: it looks for the element of a line, also to give it another size or to free that of a memzone, or
// names an address.
#[derive(Clone, Copy)]
pub enum Step {
    Alloc { wanted: Wanted },
    Find { line: u32, zone: bool },
    Resize { line: u32, size: u64 },
    FreeZone { line: u32 },
    Free { addr: u64 },
    Cut { addr: u64 },
    Stats,
}

// The call of a participant of that number.
fn call(participant: u8, number: u64) -> Caller {
    Caller {
        participant,
        number,
    }
}

// The tag of an element that a participant looks for or makes.
fn tag_of(caller: Caller, zone: bool, line: u32) -> Tag
    ensures { result.zone ≡ zone }
{
    Tag {
        who: caller.participant,
        zone,
        number: line,
    }
}

fn allocate(heap: &mut Heap, caller: Caller, wanted: &Wanted) -> Result<(), Fail>
    ensures grown { OnOk result ((run : Run) → IsGrownTo run heap.old.plain → IsGrownTo run heap.new.plain) }
{
    let Ok(request) = Request::new(wanted.size, wanted.align, wanted.bound, wanted.flags) else {
        return Err("a request".into());
    };
    heap.reserve(1)?;
    heap.alloc(caller, &request, tag_of(caller, wanted.zone, wanted.line));
    Ok(())
}

// A page of 2M comes for an allocation of participant 0.
pub fn grow_large(heap: &mut Heap, wanted: &Wanted) -> Result<(), Fail>
    requires opens { heap.old.plain ≡ opening_heap 0 (Some 0) }
    ensures grown { OnOk result (IsGrownTo LARGE heap.new.plain) }
{
    allocate(heap, call(0, 1), wanted)?;
    heap.reserve(1)?;
    heap.add_run(call(0, 2), &LARGE);
    allocate(heap, call(0, 3), wanted)?;
    Ok(())
}

// A page of 256K comes for an allocation of participant 1, after the page of 2M.
pub fn grow_small(heap: &mut Heap, wanted: &Wanted) -> Result<(), Fail>
    requires grown { IsGrownTo LARGE heap.old.plain }
{
    allocate(heap, call(1, 1), wanted)?;
    heap.reserve(1)?;
    heap.add_run(call(1, 2), &SMALL);
    allocate(heap, call(1, 3), wanted)
}

// Looks for an element, and gives it another size.
fn resize(heap: &mut Heap, caller: Caller, line: u32, size: u64) -> Result<(), Fail> {
    if size == 0 || size % 64 != 0 || size > 1 << 63 {
        return Err("a good size".into());
    }
    heap.reserve(2)?;
    let Some(addr) = heap.find(caller, tag_of(caller, false, line)) else {
        return Err("an element".into());
    };
    let next = call(caller.participant, caller.number.saturating_add(1));
    heap.resize(next, addr, size);
    Ok(())
}

// Looks for the element of a memzone, and frees it.
fn free_zone(heap: &mut Heap, caller: Caller, line: u32) -> Result<(), Fail> {
    heap.reserve(2)?;
    let Some(addr) = heap.find(caller, tag_of(caller, true, line)) else {
        return Err("a memzone".into());
    };
    let next = call(caller.participant, caller.number.saturating_add(1));
    heap.free_zone(next, addr);
    Ok(())
}

// A step, by a call or two from that one on.
fn do_step(heap: &mut Heap, caller: Caller, step: &Step) -> Result<(), Fail> {
    heap.reserve(1)?;
    match step {
        Step::Alloc { wanted } => allocate(heap, caller, wanted)?,
        Step::Resize { line, size } => resize(heap, caller, *line, *size)?,
        Step::FreeZone { line } => free_zone(heap, caller, *line)?,
        Step::Find { line, zone } => {
            heap.find(caller, tag_of(caller, *zone, *line));
        }
        Step::Free { addr } => {
            let _ = heap.free(caller, *addr);
        }
        Step::Cut { addr } => {
            heap.cut_pages(caller, *addr);
        }
        Step::Stats => {
            heap.stats(caller);
        }
    }
    Ok(())
}

// Steps one after another, each with its participant and the number of its first call.
pub fn do_steps(heap: &mut Heap, steps: &[(u8, u64, Step)]) -> Result<(), Fail> {
    for (participant, number, step) in steps {
        do_step(heap, call(*participant, *number), step)?;
    }
    Ok(())
}
