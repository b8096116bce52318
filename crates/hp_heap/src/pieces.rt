ghost use Rattle.std.specs.Prelude.{◌≡◌, ℕ, ◌+◌, ◌-◌, ◌<◌, ◌≤◌, ◌++◌, ◌∷◌, ◌^◌, false};
ghost use Rattle.hp_base.specs.declared.span.Span.{Span};
ghost use Rattle.hp_chain.specs.Chain.{Keyed, AreApart};
ghost use Rattle.hp_chain.specs.Edits.{edited};
ghost use Rattle.hp_elem.specs.Items.{Items, IsAt};
ghost use Rattle.hp_heap.specs.Placing.{has_rest_before, has_rest_behind, busy_start, pieces_of, insertions_of, count_if};
ghost use Rattle.hp_heap.specs.Headers.{spans_of};
ghost use Rattle.hp_heap.specs.Cutting.{IsWithin, IsCarving, CanCutBehind, CanCutBefore, behind_if, before_if};

use crate::headers::Headers;
use hp_base::{HEADER, Span, Tag};

/// The least whole size of an element: a header and the least data, in bytes. After MALLOC_ELEM_OVERHEAD and MIN_DATA_SIZE.
pub const LEAST_WHOLE: u64 = 192;

/// Cuts a request's data, `size` bytes at `address`, out of a free element. A rest of more than 192 bytes behind them
/// and one of at least 192 bytes before their header are free elements.
pub fn carve(headers: &mut Headers, key: usize, address: u64, size: u64, tag: Tag)
    requires free { IsAt (λ span. IsCarving span address size) key headers.old.items }
    requires apart { AreApart headers.old.items }
    requires spare { 2 ≤ headers.old.spare }
    requires stamps { headers.old.insertions + 2 < 2 ^ 64 }
    ensures items { (front back : Items) (e : Keyed Span) → headers.old.items ≡ front ++ e ∷ back → e.key ≡ key
        → spans_of headers.new.items ≡ spans_of front ++ (pieces_of e.value address size tag headers.old.insertions ++ spans_of back) }
    ensures insertions { (front back : Items) (e : Keyed Span) → headers.old.items ≡ front ++ e ∷ back → e.key ≡ key
        → headers.new.insertions ≡ insertions_of e.value address size headers.old.insertions }
    ensures spare { headers.old.spare ≤ headers.new.spare + 2 }
    ensures more { headers.new.insertions ≤ headers.old.insertions + 2 }
    ensures apart { AreApart headers.new.items }
{
    let span = headers.get(key).span;
    let before = has_rest_before(&span, address);
    let behind = has_rest_behind(&span, address, size);
    let pad = address - HEADER - busy_start(before, &span, address);
    headers.take(key, pad, size, tag);
    cut_behind(headers, key, behind, address + size);
    cut_before(headers, key, before, address - HEADER);
}

/// Cuts off what lies behind an address of a busy element, where it is to be an element, which is free. It gives its key.
pub fn cut_behind(headers: &mut Headers, key: usize, some: bool, at: u64) -> usize
    requires busy { IsAt (CanCutBehind some at) key headers.old.items }
    requires apart { AreApart headers.old.items }
    requires spare { 1 ≤ headers.old.spare }
    requires stamps { headers.old.insertions + 1 < 2 ^ 64 }
    ensures items { headers.new.items ≡ edited key (behind_if some at result (headers.old.insertions + 1)) headers.old.items }
    ensures insertions { headers.new.insertions ≡ headers.old.insertions + count_if some }
    ensures spare { headers.old.spare ≤ headers.new.spare + 1 }
    ensures apart { AreApart headers.new.items }
{
    if !some {
        return key;
    }
    let rest = headers.split(key, at);
    headers.insert(rest);
    rest
}

/// Cuts off what lies before an address of a busy element, where it is to be an element, which is free. The key stays
/// with it, and the one that is given is that of the busy element.
pub fn cut_before(headers: &mut Headers, key: usize, some: bool, at: u64) -> usize
    requires busy { IsAt (CanCutBefore some at) key headers.old.items }
    requires apart { AreApart headers.old.items }
    requires spare { 1 ≤ headers.old.spare }
    requires stamps { headers.old.insertions + 1 < 2 ^ 64 }
    ensures items { headers.new.items ≡ edited key (before_if some at result (headers.old.insertions + 1)) headers.old.items }
    ensures key { some ≡ false → result ≡ key }
    ensures insertions { headers.new.insertions ≡ headers.old.insertions + count_if some }
    ensures spare { headers.old.spare ≤ headers.new.spare + 1 }
    ensures apart { AreApart headers.new.items }
{
    if !some {
        return key;
    }
    let rest = headers.split(key, at);
    headers.insert(key);
    rest
}

fn has_rest_behind(range: &Span, address: u64, size: u64) -> bool
    requires { IsWithin range.now address size }
    ensures { result ≡ has_rest_behind range.now address size }
{
    range.addr + range.whole - (address + size) > LEAST_WHOLE
}

fn has_rest_before(range: &Span, address: u64) -> bool
    requires { range.now.addr + 128 ≤ address }
    ensures { result ≡ has_rest_before range.now address }
{
    address - HEADER - range.addr >= LEAST_WHOLE
}

fn busy_start(before: bool, range: &Span, address: u64) -> u64
    requires { range.now.addr + 128 ≤ address }
    ensures start { result ≡ busy_start before range.now address }
    ensures room { result + 128 ≤ address }
{
    if before { address - HEADER } else { range.addr }
}
