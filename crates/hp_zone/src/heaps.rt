//! Where something stands among the heaps and ranges of a directory.
ghost use Rattle.std.specs.Prelude.{◌≡◌, ◌+◌, ◌<◌, length, position, vec_len, vec_capacity};
ghost use Rattle.hp_zone.specs.Heaps.{is_named, is_unnamed};
ghost use Rattle.std.specs.List.{position_or_len};
ghost use Rattle.hp_zone.specs.Directory.{is_range, without_range};

use crate::heap_name::{HeapName, HeapRange};

// The lowest index without a name.
pub(crate) fn lowest_unnamed(heaps: &[Option<HeapName>]) -> Option<usize>
    ensures { result ≡ position is_unnamed heaps.now }
{
    heaps.iter().position(|heap| heap.is_none())
}

// The lowest index with that name.
pub(crate) fn place_of_heap(heaps: &[Option<HeapName>], name: &[u8]) -> Option<usize>
    ensures { result ≡ position (is_named name.now) heaps.now }
{
    heaps.iter().position(|heap| has_name(heap, name))
}

// Whether a heap has that name.
fn has_name(heap: &Option<HeapName>, name: &[u8]) -> bool
    ensures { result ≡ is_named name.now heap.now }
{
    match heap {
        Some(known) => known.name.as_bytes() == name,
        None => false,
    }
}

// Where the range of a heap at an address stands.
fn place_of_range(ranges: &[HeapRange], index: u32, addr: u64) -> Option<usize>
    ensures { result ≡ position (is_range index addr) ranges.now }
{
    ranges
        .iter()
        .position(|range| range.index == index && range.addr == addr)
}

// Takes the first range of a heap at an address out.
pub(crate) fn take_range(ranges: &mut Vec<HeapRange>, index: u32, addr: u64)
    requires { position_or_len (is_range index addr) ranges.old.items < length ranges.old.items }
    ensures items { ranges.new.items ≡ without_range index addr ranges.old.items }
    ensures len { vec_len ranges.new + 1 ≡ vec_len ranges.old }
    ensures capacity { vec_capacity ranges.new ≡ vec_capacity ranges.old }
{
    let Some(place) = place_of_range(ranges, index, addr) else {
        unreachable!()
    };
    let _range = ranges.remove(place);
}
