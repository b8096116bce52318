ghost use Rattle.std.specs.Prelude.{◌≡◌, ◌+◌, ◌<◌, ◌≤◌, ◌^◌, ◌&&◌, not, true, false, Some, None, if◌then◌else◌};
ghost use Rattle.std.specs.Result.{result_err};
ghost use Rattle.std.specs.List.{find};
ghost use Rattle.hp_chain.specs.Chain.{AreApart};
ghost use Rattle.hp_heap.specs.Joining.{has_data_at};
ghost use Rattle.hp_heap.specs.Headers.{spans_of};
ghost use Rattle.hp_heap.specs.Finding.{IsOfHeap, kept_tag, ranges_freed, insertions_freed};
ghost use Rattle.hp_heap.specs.Freeing.{free_fault, fault_of, fault_answer};
ghost use Rattle.hp_heap.specs.Allowed.{IsAllowed};
ghost use Rattle.hp_heap.specs.History.{IsCall};

use crate::body::{Body, record};
use crate::entry::{HeapAnswer, HeapCall};
use crate::finding::busy_at;
use crate::headers::Headers;
use crate::joining::insert_joined;
use hp_base::{Caller, Span, SpanState, Tag};

/// Why nothing was freed. Own; rte_free writes a line to the log.
#[derive(Clone, Copy, PartialEq, Eq)]
pub enum FreeFault {
    /// No busy element has its data at this address.
    NotAnElement { addr: u64 },
    /// The element is that of a memzone, which `free_zone` frees.
    IsZone { tag: Tag },
}

impl Body {
    // Frees, as a heap does.
    pub(crate) fn free(&mut self, caller: Caller, addr: u64) -> Result<(), FreeFault>
        requires spare { 0 < self.old.spare }
        ensures step { IsCall caller (HeapCall.Free addr false) (fault_answer (result_err result)) self.old self.new }
        ensures refused { result_err result ≡ free_fault addr self.old.plain }
    {
        let freed = release(&mut self.headers, addr, false);
        self.headers.sound();
        record(
            &mut self.history,
            caller,
            HeapCall::Free { addr, zone: false },
            fault_answer(&freed),
        );
        self.spare -= 1;
        freed
    }

    // Frees a memzone's element, as a heap does.
    pub(crate) fn free_zone(&mut self, caller: Caller, addr: u64)
        requires allowed { IsAllowed caller.participant (HeapCall.Free addr true) self.old.plain }
        requires spare { 0 < self.old.spare }
        ensures { IsCall caller (HeapCall.Free addr true) HeapAnswer.Done self.old self.new }
    {
        let _ = release(&mut self.headers, addr, true);
        self.headers.sound();
        record(
            &mut self.history,
            caller,
            HeapCall::Free { addr, zone: true },
            HeapAnswer::Done,
        );
        self.spare -= 1;
    }
}

// Makes the element with its data at an address free; a memzone's only where it is asked for.
fn release(headers: &mut Headers, addr: u64, zone: bool) -> Result<(), FreeFault>
    requires of_heap { IsOfHeap headers.old }
    requires stamps { headers.old.insertions + 1 < 2 ^ 64 }
    ensures ranges { spans_of headers.new.items
        ≡ ranges_freed (find (has_data_at addr) (spans_of headers.old.items)) zone headers.old.insertions (spans_of headers.old.items) }
    ensures insertions { headers.new.insertions
        ≡ insertions_freed (find (has_data_at addr) (spans_of headers.old.items)) zone headers.old.insertions }
    ensures fault { zone ≡ false → result_err result ≡ fault_of addr (find (has_data_at addr) (spans_of headers.old.items)) }
    ensures spare { headers.new.spare ≡ headers.old.spare }
    ensures apart { AreApart headers.new.items }
{
    let Some(key) = busy_at(headers, addr) else {
        return Err(FreeFault::NotAnElement { addr });
    };
    if let Some(tag) = kept_tag(zone, &headers.get(key).span) {
        return Err(FreeFault::IsZone { tag });
    }
    insert_joined(headers, key);
    Ok(())
}

// The tag by which the free of an element is refused.
fn kept_tag(zone: bool, range: &Span) -> Option<Tag>
    ensures { result ≡ kept_tag zone range.now.state }
{
    match range.state {
        SpanState::Busy { tag, .. } => kept_zone(zone, tag),
        SpanState::Free { .. } => None,
    }
}

fn kept_zone(zone: bool, tag: Tag) -> Option<Tag>
    ensures { result ≡ (if tag.zone && not zone then Some tag else None) }
{
    if tag.zone && !zone { Some(tag) } else { None }
}

// What the history has of a free.
fn fault_answer(freed: &Result<(), FreeFault>) -> HeapAnswer
    ensures { result ≡ fault_answer (result_err freed.now) }
{
    match freed {
        Ok(()) => HeapAnswer::Done,
        Err(FreeFault::NotAnElement { .. }) => HeapAnswer::NotAnElement,
        Err(FreeFault::IsZone { .. }) => HeapAnswer::IsZone,
    }
}
