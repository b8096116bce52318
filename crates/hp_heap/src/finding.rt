ghost use Rattle.std.specs.Prelude.{◌≡◌, ◌<◌, ◌≤◌, ◌^◌, Some, IfSome, true};
ghost use Rattle.hp_elem.specs.Items.{key_at};
ghost use Rattle.hp_heap.specs.PlainHeap.{data_address, end_of};
ghost use Rattle.hp_heap.specs.Tiling.{in_range};
ghost use Rattle.hp_heap.specs.Joining.{has_data_at};
ghost use Rattle.hp_heap.specs.Finding.{IsOfHeap, FindsData, FindsPadded};
ghost use Rattle.hp_heap.specs.PageCutting.{FindsFree};

use crate::headers::Headers;
use crate::state::is_free;
use hp_base::{HEADER, LINE, Span, SpanState, class_of};

/// The busy element with its data at an address. Behind a pad of 0 to 2 lines it begins at one of three addresses.
pub fn busy_at(headers: &Headers, addr: u64) -> Option<usize>
    requires { IsOfHeap headers.now }
    ensures { FindsData addr headers.now.items result }
{
    if let Some(key) = padded_at(headers, addr, 0) {
        return Some(key);
    }
    if let Some(key) = padded_at(headers, addr, LINE) {
        return Some(key);
    }
    padded_at(headers, addr, 2 * LINE)
}

// The busy element with its data at an address, where it begins in front of a pad and its header.
fn padded_at(headers: &Headers, addr: u64, pad: u64) -> Option<usize>
    requires of_heap { IsOfHeap headers.now }
    requires pad { pad ≤ 128 }
    ensures { FindsPadded addr pad headers.now.items result }
{
    if addr < HEADER + pad {
        return None;
    }
    let Some(key) = headers.starting_at(addr - (HEADER + pad)) else {
        return None;
    };
    if has_data_at(&headers.get(key).span, addr) {
        Some(key)
    } else {
        None
    }
}

fn has_data_at(range: &Span, addr: u64) -> bool
    requires { data_address range.now < 2 ^ 64 }
    ensures { result ≡ has_data_at addr range.now }
{
    match range.state {
        SpanState::Busy { pad, .. } => range.addr + pad + HEADER == addr,
        SpanState::Free { .. } => false,
    }
}

/// The free element that contains an address. One that was inserted last is found without a walk.
pub fn free_at(headers: &Headers, addr: u64) -> Option<usize>
    requires { IsOfHeap headers.now }
    ensures { FindsFree addr headers.now.items result }
{
    let Some(key) = element_at(headers, addr) else {
        return None;
    };
    if is_free(&headers.get(key).span) {
        Some(key)
    } else {
        None
    }
}

// The element that contains an address. Those at the heads of the free lists are looked at first: that of the list into which an
// element was inserted last, and then the others.
fn element_at(headers: &Headers, addr: u64) -> Option<usize>
    requires { IsOfHeap headers.now }
    ensures { result ≡ key_at addr headers.now.items }
{
    if let Some(key) = latest_at(headers, addr) {
        return Some(key);
    }
    if let Some(key) = head_at(headers, addr) {
        return Some(key);
    }
    headers.at(addr)
}

// The element at the head of the list into which one was inserted last, where it contains an address.
fn latest_at(headers: &Headers, addr: u64) -> Option<usize>
    requires { IsOfHeap headers.now }
    ensures { IfSome result (λ key. key_at addr headers.now.items ≡ Some key) }
{
    let Some(key) = headers.first_from(headers.latest_class(), |_key: usize| true) else {
        return None;
    };
    if contains(&headers.get(key).span, addr) {
        Some(key)
    } else {
        None
    }
}

// The element at the head of a free list that contains an address.
fn head_at(headers: &Headers, addr: u64) -> Option<usize>
    requires { IsOfHeap headers.now }
    ensures { IfSome result (λ key. key_at addr headers.now.items ≡ Some key) }
{
    let mut class = 0;
    while class <= 12 {
        let Some(key) = headers.first_from(class, |_key: usize| true) else {
            return None;
        };
        let range = &headers.get(key).span;
        if contains(range, addr) {
            return Some(key);
        }
        class = class_of(range.whole - HEADER) + 1;
    }
    None
}

fn contains(range: &Span, addr: u64) -> bool
    requires { end_of range.now < 2 ^ 64 }
    ensures { result ≡ in_range addr range.now }
{
    range.addr <= addr && addr < range.addr + range.whole
}
