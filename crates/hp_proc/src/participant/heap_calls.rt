//! Single calls of a heap that a participant has in its hand. Each is its next one, over all heaps.
ghost use Rattle.std.specs.Prelude.{◌≡◌, ◌+◌, ◌^◌, ◌<◌, IfNone, MatchOption, IfSome, false, true};
ghost use Rattle.std.specs.Result.{result_err};
ghost use Rattle.hp_base.specs.declared.limits.TheConstants.{MAX_PARTICIPANTS};
ghost use Rattle.hp_heap.specs.Allowed.{IsAllowed};
ghost use Rattle.hp_heap.specs.Choice.{HasNoChoice};
ghost use Rattle.hp_heap.specs.Freeing.{fault_answer};
ghost use Rattle.hp_heap.specs.History.{IsCall};
ghost use Rattle.hp_heap.specs.Laws.{HasNoPagesAt, IsRunCut};
ghost use Rattle.hp_heap.specs.Step.{address_answer, resize_answer, run_answer};
ghost use Rattle.hp_heap.specs.Tagged.{HasTaggedAt};
ghost use Rattle.hp_heap.specs.declared.entry.HeapAnswer.TheVariants as gives;
ghost use Rattle.hp_heap.specs.declared.entry.HeapCall.TheVariants as call;
ghost use Rattle.hp_proc.specs.ParticipantView.{after_call};
ghost use Rattle.hp_proc.specs.Progress.{caller_of};

use super::Participant;
use hp_base::{Caller, Mapper, Request, Run, Stats, Tag};
use hp_heap::{FreeFault, Heap};
use hp_serve::Decide;

impl<'p, M: Mapper, F: Decide + Copy + Drop> Participant<'p, M, F> {
    // The caller of its next call.
    pub(crate) fn caller(&self) -> Caller
        requires counted { self.now.context.calls + 1 < 2 ^ 64 }
        ensures is { result ≡ caller_of self.now }
        ensures few { result.participant < MAX_PARTICIPANTS }
    {
        self.judged.server.declared();
        Caller {
            participant: self.number(),
            number: self.context.calls + 1,
        }
    }

    // That call was made, and is counted.
    pub(crate) fn count_call(&mut self)
        requires counted { self.old.context.calls + 1 < 2 ^ 64 }
        ensures { self.new ≡ after_call self.old }
    {
        self.context.calls += 1;
    }

    // The caller of its next call, which is counted.
    fn next_caller(&mut self) -> Caller
        requires counted { self.old.context.calls + 1 < 2 ^ 64 }
        ensures caller { result ≡ caller_of self.old }
        ensures counted { self.new ≡ after_call self.old }
    {
        self.context.calls += 1;
        Caller {
            participant: self.number(),
            number: self.context.calls,
        }
    }

    // An allocation.
    pub(crate) fn allocate_in(
        &mut self,
        heap: &mut Heap,
        request: &Request,
        tag: Tag,
    ) -> Option<u64>
        requires spare { 0 < heap.old.spare }
        requires counted { self.old.context.calls + 1 < 2 ^ 64 }
        ensures step { IsCall (caller_of self.old) (call.Alloc request.now tag) (address_answer result) heap.old heap.new }
        ensures counted { self.new ≡ after_call self.old }
        ensures none { IfNone result (HasNoChoice self.old.party.me request.now heap.old.plain) }
    {
        let caller = self.next_caller();
        heap.alloc(caller, request, tag)
    }

    // A search for the element with a tag.
    pub(crate) fn find_in(&mut self, heap: &mut Heap, tag: Tag) -> Option<u64>
        requires spare { 0 < heap.old.spare }
        requires counted { self.old.context.calls + 1 < 2 ^ 64 }
        ensures step { IsCall (caller_of self.old) (call.Find tag) (address_answer result) heap.old heap.new }
        ensures counted { self.new ≡ after_call self.old }
        ensures there { IfSome result (λ addr. HasTaggedAt tag addr heap.new.plain) }
    {
        let caller = self.next_caller();
        heap.find(caller, tag)
    }

    // A free of the element at an address, but of a memzone's.
    pub(crate) fn free_in(&mut self, heap: &mut Heap, addr: u64) -> Result<(), FreeFault>
        requires spare { 0 < heap.old.spare }
        requires counted { self.old.context.calls + 1 < 2 ^ 64 }
        ensures step { IsCall (caller_of self.old) (call.Free addr false) (fault_answer (result_err result)) heap.old heap.new }
        ensures counted { self.new ≡ after_call self.old }
    {
        let caller = self.next_caller();
        heap.free(caller, addr)
    }

    // A free of the memzone's element at an address.
    pub(crate) fn free_zone_in(&mut self, heap: &mut Heap, addr: u64)
        requires allowed { IsAllowed self.old.party.me (call.Free addr true) heap.old.plain }
        requires spare { 0 < heap.old.spare }
        requires counted { self.old.context.calls + 1 < 2 ^ 64 }
        ensures step { IsCall (caller_of self.old) (call.Free addr true) gives.Done heap.old heap.new }
        ensures counted { self.new ≡ after_call self.old }
    {
        let caller = self.next_caller();
        heap.free_zone(caller, addr);
    }

    // A resize of the element at an address.
    pub(crate) fn resize_in(&mut self, heap: &mut Heap, addr: u64, size: u64) -> bool
        requires allowed { IsAllowed self.old.party.me (call.Resize addr size) heap.old.plain }
        requires spare { 0 < heap.old.spare }
        requires counted { self.old.context.calls + 1 < 2 ^ 64 }
        ensures step { IsCall (caller_of self.old) (call.Resize addr size) (resize_answer result) heap.old heap.new }
        ensures counted { self.new ≡ after_call self.old }
    {
        let caller = self.next_caller();
        heap.resize(caller, addr, size)
    }

    // A cut of the whole pages of the free element at an address.
    pub(crate) fn cut_in(&mut self, heap: &mut Heap, addr: u64) -> Option<Run>
        requires spare { 0 < heap.old.spare }
        requires counted { self.old.context.calls + 1 < 2 ^ 64 }
        ensures step { IsCall (caller_of self.old) (call.Cut addr) (run_answer result) heap.old heap.new }
        ensures counted { self.new ≡ after_call self.old }
        ensures pages { MatchOption result (HasNoPagesAt addr heap.old.plain) (IsRunCut addr heap.old.plain) }
    {
        let caller = self.next_caller();
        heap.cut_pages(caller, addr)
    }

    // A run of pages comes.
    pub(crate) fn grow_in(&mut self, heap: &mut Heap, run: &Run)
        requires allowed { IsAllowed self.old.party.me (call.Grow run.now) heap.old.plain }
        requires spare { 0 < heap.old.spare }
        requires counted { self.old.context.calls + 1 < 2 ^ 64 }
        ensures step { IsCall (caller_of self.old) (call.Grow run.now) gives.Done heap.old heap.new }
        ensures counted { self.new ≡ after_call self.old }
    {
        let caller = self.next_caller();
        heap.add_run(caller, run);
    }

    // The statistics are asked for.
    pub(crate) fn stats_in(&mut self, heap: &mut Heap) -> Stats
        requires spare { 0 < heap.old.spare }
        requires counted { self.old.context.calls + 1 < 2 ^ 64 }
        ensures step { IsCall (caller_of self.old) call.Stats (gives.Statistics result) heap.old heap.new }
        ensures counted { self.new ≡ after_call self.old }
    {
        let caller = self.next_caller();
        heap.stats(caller)
    }
}
