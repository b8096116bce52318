//! Each call, with what it requires looked at before. Where that is not so, nothing is done.
ghost use Rattle.std.specs.Prelude.{◌≡◌, ◌<◌, true};
ghost use Rattle.hp_external.specs.Naming.{IsThatHeap};
ghost use Rattle.test_maps.specs.World.{IsReady, IsWorld, KeepsTies};

use super::looks::{is_that, may_attach};
use super::world::World;
use hp_base::{Caller, MemMapper, Request, Tag};
use hp_external::{
    AddFault, AttachFault, CreateFault, DestroyFault, DetachFault, RemoveFault, memory_add,
    memory_attach, memory_detach, memory_remove,
};
use hp_heap::Heap;
use hp_maps::LocalMaps;
use hp_zone::Names;

const FIRST: Caller = Caller {
    participant: 0,
    number: 1,
};

pub fn create(all: &mut World, text: &[u8]) -> Result<(u32, u32), CreateFault>
    requires { IsWorld all.old.names.heaps all.old.heap all.old.segs all.old.first all.old.second }
    ensures { IsWorld all.new.names.heaps all.new.heap all.new.segs all.new.first all.new.second }
{
    hp_external::create(&mut all.names, text)
}

// A letter, from A on.
fn letter(n: u8) -> [u8; 1] {
    [65 + n % 64]
}

pub fn fill(all: &mut World, count: u8) -> bool
    requires { IsWorld all.old.names.heaps all.old.heap all.old.segs all.old.first all.old.second }
    ensures { IsWorld all.new.names.heaps all.new.heap all.new.segs all.new.first all.new.second }
{
    for n in 0..count {
        if create(all, &letter(n)).is_err() {
            return false;
        }
    }
    true
}

// Whether a call by that name may be made.
fn is_ready(all: &mut World, text: &[u8]) -> bool
    requires { IsWorld all.old.names.heaps all.old.heap all.old.segs all.old.first all.old.second }
    ensures world { IsWorld all.new.names.heaps all.new.heap all.new.segs all.new.first all.new.second }
    ensures ready { result ≡ true → IsReady all.new.names.heaps all.new.heap text.now }
{
    if all.heap.reserve(1).is_err() {
        return false;
    }
    is_that(&all.names, &all.heap, text)
}

pub fn destroy(all: &mut World, text: &[u8]) -> Option<Result<(), DestroyFault>>
    requires { IsWorld all.old.names.heaps all.old.heap all.old.segs all.old.first all.old.second }
    ensures { IsWorld all.new.names.heaps all.new.heap all.new.segs all.new.first all.new.second }
{
    if !is_ready(all, text) {
        return None;
    }
    Some(hp_external::destroy(&mut all.names, &mut all.heap, FIRST, text))
}

pub fn add(
    all: &mut World,
    text: &[u8],
    addr: u64,
    len: u64,
    page: u64,
) -> Option<Result<(), AddFault>>
    requires { IsWorld all.old.names.heaps all.old.heap all.old.segs all.old.first all.old.second }
    ensures { IsWorld all.new.names.heaps all.new.heap all.new.segs all.new.first all.new.second }
{
    if !is_ready(all, text) {
        return None;
    }
    Some(memory_add(
        &mut all.names,
        &mut all.heap,
        &mut all.segs,
        FIRST,
        text,
        addr,
        len,
        page,
    ))
}

pub fn remove(all: &mut World, text: &[u8], addr: u64, len: u64) -> Option<Result<(), RemoveFault>>
    requires { IsWorld all.old.names.heaps all.old.heap all.old.segs all.old.first all.old.second }
    ensures { IsWorld all.new.names.heaps all.new.heap all.new.segs all.new.first all.new.second }
{
    if !is_ready(all, text) {
        return None;
    }
    Some(memory_remove(
        &mut all.names,
        &mut all.heap,
        &mut all.segs,
        FIRST,
        text,
        addr,
        len,
    ))
}

pub fn attach(
    all: &mut World,
    who: u8,
    text: &[u8],
    addr: u64,
    len: u64,
) -> Option<Result<(), AttachFault>>
    requires { IsWorld all.old.names.heaps all.old.heap all.old.segs all.old.first all.old.second }
    ensures { IsWorld all.new.names.heaps all.new.heap all.new.segs all.new.first all.new.second }
{
    if !is_ready(all, text) {
        return None;
    }
    if who == 0 {
        attach_by(
            &all.names,
            &mut all.heap,
            &mut all.first,
            0,
            text,
            addr,
            len,
        )
    } else {
        attach_by(
            &all.names,
            &mut all.heap,
            &mut all.second,
            1,
            text,
            addr,
            len,
        )
    }
}

fn attach_by(
    names: &Names,
    heap: &mut Heap,
    maps: &mut LocalMaps<MemMapper>,
    participant: u8,
    text: &[u8],
    addr: u64,
    len: u64,
) -> Option<Result<(), AttachFault>>
    requires participant { participant < 16 }
    requires room { 0 < heap.old.spare }
    requires that { IsThatHeap names.now.heaps.plain text.now heap.old.plain }
    requires capacity { maps.old.capacity ≡ 2048 }
    ensures { KeepsTies participant names.now.heaps.plain.ranges heap.old.plain heap.new.plain maps.old maps.new }
{
    if !may_attach(heap, maps, participant, addr, len) {
        return None;
    }
    let caller = Caller {
        participant,
        number: 1,
    };
    Some(memory_attach(names, heap, maps, caller, text, addr, len))
}

pub fn detach(
    all: &mut World,
    who: u8,
    text: &[u8],
    addr: u64,
    len: u64,
) -> Option<Result<(), DetachFault>>
    requires { IsWorld all.old.names.heaps all.old.heap all.old.segs all.old.first all.old.second }
    ensures { IsWorld all.new.names.heaps all.new.heap all.new.segs all.new.first all.new.second }
{
    if !is_ready(all, text) {
        return None;
    }
    if who == 0 {
        Some(detach_by(
            &all.names,
            &mut all.heap,
            &mut all.first,
            0,
            text,
            addr,
            len,
        ))
    } else {
        Some(detach_by(
            &all.names,
            &mut all.heap,
            &mut all.second,
            1,
            text,
            addr,
            len,
        ))
    }
}

fn detach_by(
    names: &Names,
    heap: &mut Heap,
    maps: &mut LocalMaps<MemMapper>,
    participant: u8,
    text: &[u8],
    addr: u64,
    len: u64,
) -> Result<(), DetachFault>
    requires participant { participant < 16 }
    requires room { 0 < heap.old.spare }
    requires that { IsThatHeap names.now.heaps.plain text.now heap.old.plain }
    ensures { KeepsTies participant names.now.heaps.plain.ranges heap.old.plain heap.new.plain maps.old maps.new }
{
    let caller = Caller {
        participant,
        number: 1,
    };
    memory_detach(names, heap, maps, caller, text, addr, len)
}

pub fn alloc_for(all: &mut World, who: u8, size: u64) -> Option<Option<u64>>
    requires { IsWorld all.old.names.heaps all.old.heap all.old.segs all.old.first all.old.second }
    ensures { IsWorld all.new.names.heaps all.new.heap all.new.segs all.new.first all.new.second }
{
    let Ok(request) = Request::new(size, 0, 0, 0) else {
        return None;
    };
    if all.heap.reserve(1).is_err() {
        return None;
    }
    let caller = Caller {
        participant: who,
        number: 1,
    };
    let tag = Tag {
        who,
        zone: false,
        number: 1,
    };
    Some(all.heap.alloc(caller, &request, tag))
}

pub fn free(all: &mut World, addr: u64) -> bool
    requires { IsWorld all.old.names.heaps all.old.heap all.old.segs all.old.first all.old.second }
    ensures { IsWorld all.new.names.heaps all.new.heap all.new.segs all.new.first all.new.second }
{
    if all.heap.reserve(1).is_err() {
        return false;
    }
    all.heap.free(FIRST, addr).is_ok()
}
