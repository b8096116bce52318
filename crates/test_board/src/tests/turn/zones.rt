//! A memzone is reserved and freed, with the names and the heap of its memory in hand.
ghost use Rattle.std.specs.Prelude.{◌≡◌, ◌+◌, ◌<◌, ◌^◌, true, IfSome};
ghost use Rattle.hp_heap.specs.ChunkOrder.{AreInOrder};
ghost use Rattle.hp_heap.specs.Tiling.{IsTiled};
ghost use Rattle.test_board.specs.Zoned.{HasFreed, HasGone, HasPut, HasReserved};

use hp_base::{Caller, Request, Tag};
use hp_heap::Heap;
use hp_zone::{Names, Zone};

// The number under which the memzones of this heap are found.
const NUMBER: u32 = 1;

/// The bytes of a memzone.
pub const BYTES: u64 = 1024;

const ALIGN: u64 = 64;

/// What holds of every heap is said of this one.
pub fn stands(heap: &Heap)
    ensures tiled { IsTiled heap.now.plain }
    ensures order { AreInOrder heap.now.plain.chunks }
{
    heap.sound();
    let _chunks = heap.chunks();
}

/// A participant's call with a number.
pub fn call(who: u8, number: u64) -> Caller
    ensures { result ≡ record { participant = who; number = number } }
{
    Caller {
        participant: who,
        number,
    }
}

// The tag of a memzone.
fn zone_tag(who: u8) -> Tag
    ensures { result ≡ record { who = who; zone = true; number = NUMBER } }
{
    Tag {
        who,
        zone: true,
        number: NUMBER,
    }
}

/// An element for a memzone is allocated.
pub fn allocated(heap: &mut Heap, who: u8, made: u64, request: &Request) -> Option<u64>
    requires { made < 2 ^ 63 }
    ensures { IfSome result (λ addr. HasReserved who made addr heap.old heap.new) }
{
    if heap.reserve(1).is_err() {
        return None;
    }
    stands(heap);
    heap.alloc(call(who, made + 1), request, zone_tag(who))
}

/// The memzone of that address is put under the name, which no zone had.
pub fn put(names: &mut Names, text: &[u8], addr: u64) -> bool
    ensures { result ≡ true → HasPut addr names.old names.new }
{
    let Ok(name) = names.zones.check(text, BYTES, ALIGN, 0) else {
        return false;
    };
    if names.zones.reserve().is_err() {
        return false;
    }
    let Some((_, socket)) = names.heaps.lookup(b"outside") else {
        return false;
    };
    names.zones.insert(Zone {
        name,
        addr,
        len: BYTES,
        socket,
        heap: 1,
    });
    true
}

/// The memzone of that name goes: where its element is.
pub fn gone(names: &mut Names, text: &[u8]) -> Option<u64>
    ensures { IfSome result (λ addr. HasGone addr names.old names.new) }
{
    let _changes = names.zones.log();
    let Ok(zone) = names.zones.remove(text) else {
        return None;
    };
    if zone.heap != 1 {
        return None;
    }
    Some(zone.addr)
}

/// The element of a memzone is found, and freed where it has that address.
pub fn freed(heap: &mut Heap, who: u8, made: u64, addr: u64) -> bool
    requires { made < 2 ^ 63 }
    ensures { result ≡ true → HasFreed who made addr heap.old heap.new }
{
    if heap.reserve(2).is_err() {
        return false;
    }
    stands(heap);
    let Some(found) = heap.find(call(who, made + 1), zone_tag(who)) else {
        return false;
    };
    if found != addr {
        return false;
    }
    stands(heap);
    heap.free_zone(call(who, made + 2), found);
    true
}
