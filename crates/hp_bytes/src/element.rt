//! The busy elements of a heap, by the address of their data.
ghost use Rattle.std.specs.Prelude.{◌≡◌, ◌+◌, ◌==◌, Some, None, if◌then◌else◌};
ghost use Rattle.std.specs.Option.{option_map};
ghost use Rattle.hp_heap.specs.PlainHeap.{size_of_state};
ghost use Rattle.hp_heap.specs.Joining.{busy_at, has_data_at};

use hp_base::{HEADER, Span, SpanState};
use hp_heap::Heap;

/// The size of the data of the busy element with its data at an address, where there is one.
pub fn data_size(heap: &Heap, addr: u64) -> Option<u64>
    ensures { result ≡ option_map (λ range. size_of_state range.state) (busy_at addr heap.now.plain) }
{
    heap.sound();
    match heap.lookup(addr) {
        None => None,
        Some(range) => size_at(&range, addr),
    }
}

// The size of an element's data, where they begin at an address.
fn size_at(range: &Span, addr: u64) -> Option<u64>
    ensures { result ≡ (if has_data_at addr range.now then Some (size_of_state range.now.state) else None) }
{
    match range.state {
        SpanState::Busy { pad, size, .. } => {
            if is_data_address(range.addr, pad, addr) {
                Some(size)
            } else {
                None
            }
        }
        SpanState::Free { .. } => None,
    }
}

// Whether an address is that of the data behind a pad and a header.
fn is_data_address(start: u64, pad: u64, addr: u64) -> bool
    ensures { result ≡ (start + pad + 128 == addr) }
{
    match addr.checked_sub(start) {
        None => false,
        Some(before) => before >= HEADER && before - HEADER == pad,
    }
}
