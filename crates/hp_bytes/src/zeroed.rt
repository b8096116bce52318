ghost use Rattle.std.specs.Prelude.{◌≡◌, ◌<◌, IfSome, MatchOption, replicate};
ghost use Rattle.hp_heap.specs.Choice.{HasNoChoice};
ghost use Rattle.hp_heap.specs.Placing.{IsPlacedIn};
ghost use Rattle.hp_heap.specs.Step.{address_answer};
ghost use Rattle.hp_heap.specs.History.{IsCall};
ghost use Rattle.hp_heap.specs.declared.entry.HeapCall.{HeapCall};
ghost use Rattle.hp_bytes.specs.Stores.{IsData, with_bytes};
ghost use Rattle.hp_bytes.specs.Zeroed.{KeepsData, LieIn};

use crate::store::Store;
use hp_base::{Caller, Request, Tag};
use hp_heap::Heap;

impl Store {
    /// Allocates as `Heap::alloc` does, and makes the data of what it gives 0. After rte_zmalloc.
    pub fn zalloc(
        &mut self,
        heap: &mut Heap,
        caller: Caller,
        req: &Request,
        tag: Tag,
    ) -> Option<u64>
        requires spare { 0 < heap.old.spare }
        requires inside { LieIn self.old heap.old.plain }

        // The heap makes the step of an allocation, with this address.
        ensures step { IsCall caller (HeapCall.Alloc req.now tag) (address_answer result) heap.old heap.new }
        ensures choice { MatchOption result (HasNoChoice caller.participant req.now heap.old.plain)
            (IsPlacedIn caller.participant req.now heap.old.plain) }

        // The segments lie in the store still.
        ensures inside { LieIn self.new heap.new.plain }

        // The data there are 0, and no other byte changes; so the data of other elements stay.
        ensures zeros { IfSome result (λ addr. IsData addr self.new heap.new.plain (replicate req.now.size 0)) }
        ensures store { MatchOption result (self.new ≡ self.old)
            (λ addr. self.new ≡ with_bytes addr (replicate req.now.size 0) self.old) }
        ensures others { KeepsData self.old self.new heap.old.plain heap.new.plain }
    {
        heap.sound();
        let addr = heap.alloc(caller, req, tag)?;
        heap.sound();
        let Ok(part) = self.part_at(heap, addr) else {
            unreachable!();
        };
        self.clear(part);
        Some(addr)
    }
}
