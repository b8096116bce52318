ghost use Rattle.std.specs.Prelude.{◌≡◌, ◌+◌, ◌<◌, ◌≤◌, ◌^◌, MatchOption};
ghost use Rattle.hp_base.specs.declared.chunk.Chunk.{Chunk};
ghost use Rattle.hp_chain.specs.Chain.{AreApart};
ghost use Rattle.hp_heap.specs.Choice.{HasNoChoice};
ghost use Rattle.hp_heap.specs.Placing.{IsPlacedIn};
ghost use Rattle.hp_heap.specs.Headers.{spans_of};
ghost use Rattle.hp_heap.specs.Joins.{HasRoom};
ghost use Rattle.hp_heap.specs.Step.{address_answer};
ghost use Rattle.hp_heap.specs.History.{IsCall};
ghost use Rattle.hp_heap.specs.Allocating.{IsAllocated};

use crate::body::{Body, record};
use crate::choice::{Need, choose};
use crate::entry::{HeapAnswer, HeapCall};
use crate::headers::Headers;
use crate::pieces::carve;
use hp_base::{Caller, Chunk, Request, Tag, place};

impl Body {
    // Allocates, as a heap does.
    pub(crate) fn alloc(&mut self, caller: Caller, req: &Request, tag: Tag) -> Option<u64>
        requires spare { 0 < self.old.spare }

        // It is one step of the heap.
        ensures step { IsCall caller (HeapCall.Alloc req.now tag) (address_answer result) self.old self.new }

        // In the subject's words: the place in the choice, or there is nothing to choose.
        ensures choice { MatchOption result (HasNoChoice caller.participant req.now self.old.plain)
            (IsPlacedIn caller.participant req.now self.old.plain) }
    {
        let need = Need {
            request: *req,
            any_page: false,
            participant: caller.participant,
            any_chunk: self.serves.is_some(),
        };
        let address = allocate(&mut self.headers, &self.chunks, need, tag);
        self.headers.sound();
        record(
            &mut self.history,
            caller,
            HeapCall::Alloc { request: *req, tag },
            address_answer(address),
        );
        self.spare -= 1;
        address
    }
}

// What an allocation answers.
pub(crate) fn address_answer(address: Option<u64>) -> HeapAnswer
    ensures { result ≡ address_answer address }
{
    match address {
        Some(addr) => HeapAnswer::Address { addr },
        None => HeapAnswer::Nothing,
    }
}

// Cuts a request out of the free element that the search meets first.
fn allocate(headers: &mut Headers, chunks: &[Chunk], need: Need, tag: Tag) -> Option<u64>
    requires room { HasRoom (spans_of headers.old.items) }
    requires apart { AreApart headers.old.items }
    requires stamps { headers.old.insertions + 2 < 2 ^ 64 }
    requires spare { 2 ≤ headers.old.spare }
    ensures allocated { IsAllocated chunks.now need tag headers.old headers.new result }
    ensures spare { headers.old.spare ≤ headers.new.spare + 2 }
    ensures more { headers.new.insertions ≤ headers.old.insertions + 2 }
    ensures apart { AreApart headers.new.items }
{
    let key = choose(headers, chunks, need)?;
    let range = headers.get(key).span;
    let address = place(range.addr, range.addr + range.whole, &need.request)?;
    carve(headers, key, address, need.request.size, tag);
    Some(address)
}
