ghost use Rattle.std.specs.Prelude.{◌≡◌, ◌<◌, ◌^◌, IfSome};
ghost use Rattle.std.specs.List.{find};
ghost use Rattle.std.specs.Option.{option_map};
ghost use Rattle.hp_heap.specs.PlainHeap.{data_address};
ghost use Rattle.hp_heap.specs.Tiling.{in_range, range_at};
ghost use Rattle.hp_heap.specs.Joining.{has_tag};
ghost use Rattle.hp_heap.specs.Tagged.{HasTaggedAt};
ghost use Rattle.hp_heap.specs.Headers.{spans_of};
ghost use Rattle.hp_heap.specs.Finding.{IsOfHeap};
ghost use Rattle.hp_heap.specs.Step.{address_answer};
ghost use Rattle.hp_heap.specs.History.{IsCall};

use crate::alloc::address_answer;
use crate::body::{Body, record};
use crate::entry::{HeapAnswer, HeapCall};
use crate::headers::Headers;
use hp_base::{Caller, HEADER, Span, SpanState, Stats, Tag};

impl Body {
    // Looks for a tag, as a heap does.
    pub(crate) fn find(&mut self, caller: Caller, tag: Tag) -> Option<u64>
        requires spare { 0 < self.old.spare }
        ensures step { IsCall caller (HeapCall.Find tag) (address_answer result) self.old self.new }

        // The element with its data there is busy, and has the tag.
        ensures there { IfSome result (λ addr. HasTaggedAt tag addr self.new.plain) }
    {
        let address = tagged(&self.headers, tag);
        record(
            &mut self.history,
            caller,
            HeapCall::Find { tag },
            address_answer(address),
        );
        self.spare -= 1;
        address
    }

    // The statistics, with an entry in the history.
    pub(crate) fn stats(&mut self, caller: Caller) -> Stats
        requires spare { 0 < self.old.spare }
        ensures { IsCall caller HeapCall.Stats (HeapAnswer.Statistics result) self.old self.new }
    {
        let stats = self.headers.statistics();
        record(
            &mut self.history,
            caller,
            HeapCall::Stats,
            HeapAnswer::Statistics { stats },
        );
        self.spare -= 1;
        stats
    }

    // The element that contains an address.
    pub(crate) fn lookup(&self, addr: u64) -> Option<Span>
        ensures { result ≡ range_at addr self.now.plain }
    {
        span_at(&self.headers, addr)
    }
}

// The address of the data of the busy element with a tag.
fn tagged(headers: &Headers, tag: Tag) -> Option<u64>
    requires { IsOfHeap headers.now }
    ensures { result ≡ option_map data_address (find (has_tag tag.zone tag.number) (spans_of headers.now.items)) }
{
    let Some(key) = headers.find_tag(tag) else {
        return None;
    };
    Some(data_address(&headers.get(key).span))
}

// The address of an element's data.
fn data_address(range: &Span) -> u64
    requires { data_address range.now < 2 ^ 64 }
    ensures { result ≡ data_address range.now }
{
    match range.state {
        SpanState::Busy { pad, .. } => range.addr + pad + HEADER,
        SpanState::Free { .. } => range.addr + HEADER,
    }
}

// The element that contains an address.
fn span_at(headers: &Headers, addr: u64) -> Option<Span>
    requires { IsOfHeap headers.now }
    ensures { result ≡ find (in_range addr) (spans_of headers.now.items) }
{
    let Some(key) = headers.at(addr) else {
        return None;
    };
    Some(headers.get(key).span)
}
