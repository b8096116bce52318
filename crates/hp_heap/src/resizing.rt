ghost use Rattle.std.specs.Prelude.{◌≡◌, ◌+◌, ◌<◌, ◌≤◌, ◌^◌, ◌&&◌, true, false, nat_le, IsSome, MatchBool};
ghost use Rattle.std.specs.List.{find};
ghost use Rattle.hp_chain.specs.Chain.{AreApart};
ghost use Rattle.hp_chain.specs.Edits.{edited};
ghost use Rattle.hp_elem.specs.Items.{IsAt};
ghost use Rattle.hp_heap.specs.PlainHeap.{end_of};
ghost use Rattle.hp_heap.specs.Joining.{has_data_at};
ghost use Rattle.hp_heap.specs.Resizing.{bytes_needed, is_next_free, can_resize};
ghost use Rattle.hp_heap.specs.Headers.{IsBusy, spans_of};
ghost use Rattle.hp_heap.specs.Finding.{IsOfHeap};
ghost use Rattle.hp_heap.specs.InPlace.{IsSomeSize, IsGrowing, sized, KeepsBytes, TakesNext, LacksBytes, Resizes, ResizesData};
ghost use Rattle.hp_heap.specs.Step.{resize_answer};
ghost use Rattle.hp_heap.specs.Allowed.{IsAllowed};
ghost use Rattle.hp_heap.specs.History.{IsCall};

use crate::body::{Body, record};
use crate::entry::{HeapAnswer, HeapCall};
use crate::finding::busy_at;
use crate::headers::Headers;
use crate::pieces::{LEAST_WHOLE, cut_behind};
use crate::state::{NO_TAG, is_free, touches};
use hp_base::{Caller, HEADER, Span, SpanState};

impl Body {
    // Resizes in place, as a heap does.
    pub(crate) fn resize(&mut self, caller: Caller, addr: u64, size: u64) -> bool
        requires allowed { IsAllowed caller.participant (HeapCall.Resize addr size) self.old.plain }
        requires spare { 0 < self.old.spare }
        ensures step { IsCall caller (HeapCall.Resize addr size) (resize_answer result) self.old self.new }

        // It is no exactly where the element and the free one behind it have too few bytes, and then nothing changes.
        ensures had { result ≡ can_resize addr size self.old.plain }
        ensures refused { result ≡ false → self.new.plain ≡ self.old.plain }
    {
        let had = resize_data(&mut self.headers, addr, size);
        self.headers.sound();
        record(
            &mut self.history,
            caller,
            HeapCall::Resize { addr, size },
            resize_answer(had),
        );
        self.spare -= 1;
        had
    }
}

// What the history has of a resize.
fn resize_answer(had: bool) -> HeapAnswer
    ensures { result ≡ resize_answer had }
{
    if had { HeapAnswer::Yes } else { HeapAnswer::No }
}

// Gives the element with its data at an address another size, where it has it.
fn resize_data(headers: &mut Headers, addr: u64, size: u64) -> bool
    requires of_heap { IsOfHeap headers.old }
    requires there { IsSome (find (has_data_at addr) (spans_of headers.old.items)) }
    requires size { IsSomeSize size }
    requires spare { 1 ≤ headers.old.spare }
    requires stamps { headers.old.insertions + 1 < 2 ^ 64 }
    ensures resized { ResizesData addr size headers.old headers.new result }
    ensures spare { headers.old.spare ≤ headers.new.spare + 1 }
    ensures more { headers.new.insertions ≤ headers.old.insertions + 1 }
    ensures apart { AreApart headers.new.items }
{
    let Some(key) = busy_at(headers, addr) else {
        return false;
    };
    resize_at(headers, key, size)
}

// Gives a busy element another size in its own bytes, or with those of the free one behind it.
fn resize_at(headers: &mut Headers, key: usize, size: u64) -> bool
    requires of_heap { IsOfHeap headers.old }
    requires busy { IsAt IsBusy key headers.old.items }
    requires size { IsSomeSize size }
    requires spare { 1 ≤ headers.old.spare }
    requires stamps { headers.old.insertions + 1 < 2 ^ 64 }
    ensures resized { Resizes key size headers.old headers.new result }
    ensures spare { headers.old.spare ≤ headers.new.spare + 1 }
    ensures more { headers.new.insertions ≤ headers.old.insertions + 1 }
    ensures apart { AreApart headers.new.items }
{
    let span = headers.get(key).span;
    if bytes_needed(&span, size) > span.whole {
        return take_next(headers, key, size);
    }
    set_size(headers, key, size);
    true
}

// Gives a busy element a size that its own bytes do not have, with those of the free one behind it. Of the two a rest of
// at least 192 bytes is free again.
fn take_next(headers: &mut Headers, key: usize, size: u64) -> bool
    requires of_heap { IsOfHeap headers.old }
    requires busy { IsAt (λ span. IsGrowing span size) key headers.old.items }
    requires size { IsSomeSize size }
    requires spare { 1 ≤ headers.old.spare }
    requires stamps { headers.old.insertions + 1 < 2 ^ 64 }
    ensures taken { MatchBool result (TakesNext key size headers.old headers.new) (LacksBytes key size headers.old headers.new) }
    ensures spare { headers.old.spare ≤ headers.new.spare + 1 }
    ensures more { headers.new.insertions ≤ headers.old.insertions + 1 }
    ensures apart { AreApart headers.new.items }
{
    let node = *headers.get(key);
    let Some(next) = node.next else {
        return false;
    };
    let above = headers.get(next).span;
    let need = bytes_needed(&node.span, size);
    if !holds_with(&node.span, &above, need) {
        return false;
    }
    headers.take(next, 0, 0, NO_TAG);
    headers.join(key);
    set_size(headers, key, size);
    let rest = node.span.whole + above.whole - need;
    cut_behind(headers, key, rest >= LEAST_WHOLE, node.span.addr + need);
    true
}

// Gives a busy element another size of its data, in its own bytes.
fn set_size(headers: &mut Headers, key: usize, size: u64)
    requires apart { AreApart headers.old.items }
    requires busy { IsAt IsBusy key headers.old.items }
    ensures items { headers.new.items ≡ edited key (sized size) headers.old.items }
    ensures spare { headers.new.spare ≡ headers.old.spare }
    ensures insertions { headers.new.insertions ≡ headers.old.insertions }
    ensures apart { AreApart headers.new.items }
{
    if let SpanState::Busy { pad, tag, .. } = headers.get(key).span.state {
        headers.set_busy(key, pad, size, tag);
    }
}

// The bytes that an element needs for a size.
fn bytes_needed(range: &Span, size: u64) -> u64
    requires { bytes_needed range.now size < 2 ^ 64 }
    ensures { result ≡ bytes_needed range.now size }
{
    match range.state {
        SpanState::Busy { pad, .. } => size + pad + HEADER,
        SpanState::Free { .. } => size + HEADER,
    }
}

// Whether an element has so many bytes with those of a free one that touches it.
fn holds_with(span: &Span, above: &Span, need: u64) -> bool
    requires end { end_of span.now < 2 ^ 64 }
    requires sum { span.now.whole + above.now.whole < 2 ^ 64 }
    ensures { result ≡ (is_next_free span.now above.now && nat_le need (span.now.whole + above.now.whole)) }
{
    is_next_free(span, above) && need <= span.whole + above.whole
}

fn is_next_free(span: &Span, above: &Span) -> bool
    requires { end_of span.now < 2 ^ 64 }
    ensures { result ≡ is_next_free span.now above.now }
{
    is_free(above) && touches(span, above)
}
