//! The calls of a heap that stand in its history, of elements and pages.
ghost use Rattle.std.specs.Prelude.{◌≡◌, ◌<◌, false, true, IfSome, MatchOption};
ghost use Rattle.std.specs.Result.{result_err};
ghost use Rattle.hp_heap.specs.Allowed.{IsAllowed};
ghost use Rattle.hp_heap.specs.Choice.{HasNoChoice};
ghost use Rattle.hp_heap.specs.Freeing.{fault_answer, free_fault};
ghost use Rattle.hp_heap.specs.History.{IsCall};
ghost use Rattle.hp_heap.specs.Laws.{HasNoPagesAt, IsRunCut};
ghost use Rattle.hp_heap.specs.Placing.{IsPlacedIn};
ghost use Rattle.hp_heap.specs.Resizing.{can_resize};
ghost use Rattle.hp_heap.specs.Step.{address_answer, resize_answer, run_answer};
ghost use Rattle.hp_heap.specs.Tagged.{HasTaggedAt};

use crate::entry::{HeapAnswer, HeapCall};
use crate::freeing::FreeFault;
use crate::heap::Heap;
use hp_base::{Caller, Request, Run, Stats, Tag};

impl Heap {
    /// Allocates for a request, and gives the address of its data: the place of the request in the free element of the
    /// least class, and there the one inserted last, of those with a page that fits its flags, or else of all where these
    /// are a hint. On an external heap only elements of chunks count that the caller has attached. It is `None` exactly
    /// where no free element is left. After malloc_heap_alloc of rte_malloc.
    pub fn alloc(&mut self, caller: Caller, req: &Request, tag: Tag) -> Option<u64>
        requires spare { 0 < self.old.spare }

        // It is one step of the heap.
        ensures step { IsCall caller (HeapCall.Alloc req.now tag) (address_answer result) self.old self.new }

        // In the subject's words: the place in the choice, or there is nothing to choose.
        ensures choice { MatchOption result (HasNoChoice caller.participant req.now self.old.plain)
            (IsPlacedIn caller.participant req.now self.old.plain) }
    {
        self.body().alloc(caller, req, tag)
    }

    /// Frees the element with its data at `addr`: it is free memory, one with the free elements of its segment list
    /// that touch it. It refuses where there is no such element, and a memzone's. After malloc_heap_free of rte_malloc.
    pub fn free(&mut self, caller: Caller, addr: u64) -> Result<(), FreeFault>
        requires spare { 0 < self.old.spare }
        ensures step { IsCall caller (HeapCall.Free addr false) (fault_answer (result_err result)) self.old self.new }
        ensures refused { result_err result ≡ free_fault addr self.old.plain }
    {
        self.body().free(caller, addr)
    }

    /// Frees the element of a memzone, with its data at `addr`. After rte_memzone_free.
    pub fn free_zone(&mut self, caller: Caller, addr: u64)
        requires allowed { IsAllowed caller.participant (HeapCall.Free addr true) self.old.plain }
        requires spare { 0 < self.old.spare }
        ensures { IsCall caller (HeapCall.Free addr true) HeapAnswer.Done self.old self.new }
    {
        self.body().free_zone(caller, addr)
    }

    /// Gives the element with its data at `addr` another size, in bytes, without moving its data, and says whether it
    /// has it: in its own bytes, or with those of the free element right behind it. A no leaves the heap. After
    /// malloc_elem_resize of malloc_elem.
    pub fn resize(&mut self, caller: Caller, addr: u64, size: u64) -> bool
        requires allowed { IsAllowed caller.participant (HeapCall.Resize addr size) self.old.plain }
        requires spare { 0 < self.old.spare }
        ensures step { IsCall caller (HeapCall.Resize addr size) (resize_answer result) self.old self.new }

        // It is no exactly where the element and the free one behind it have too few bytes, and then nothing changes.
        ensures had { result ≡ can_resize addr size self.old.plain }
        ensures refused { result ≡ false → self.new.plain ≡ self.old.plain }
    {
        self.body().resize(caller, addr, size)
    }

    /// The address of the data of the busy element with the zone mark and the number of a tag, of several the lowest. Who
    /// asked for it is not compared. Own; it stands for the address that a line of the workload keeps.
    pub fn find(&mut self, caller: Caller, tag: Tag) -> Option<u64>
        requires spare { 0 < self.old.spare }
        ensures step { IsCall caller (HeapCall.Find tag) (address_answer result) self.old self.new }

        // The element with its data there is busy, and has the tag.
        ensures there { IfSome result (λ addr. HasTaggedAt tag addr self.new.plain) }
    {
        self.body().find(caller, tag)
    }

    /// Its statistics. After malloc_heap_get_stats of rte_malloc.
    pub fn stats(&mut self, caller: Caller) -> Stats
        requires spare { 0 < self.old.spare }
        ensures { IsCall caller HeapCall.Stats (HeapAnswer.Statistics result) self.old self.new }
    {
        self.body().stats(caller)
    }

    /// Adds the pages of a run: they are free memory, one with the free elements of their segment list that touch
    /// them. After malloc_heap_add_memory of rte_malloc.
    pub fn add_run(&mut self, caller: Caller, run: &Run)
        requires allowed { IsAllowed caller.participant (HeapCall.Grow run.now) self.old.plain }
        requires spare { 0 < self.old.spare }
        ensures { IsCall caller (HeapCall.Grow run.now) HeapAnswer.Done self.old self.new }
    {
        self.body().add_run(caller, run)
    }

    /// Takes the whole pages out of the free element that contains `addr`, and gives them as a run. What is left of
    /// the element before and behind them is free, and each rest is nothing or large enough for an element, for which
    /// a page more may stay. After malloc_heap_free of rte_malloc, which gives pages back to the system; which pages
    /// stay is own.
    pub fn cut_pages(&mut self, caller: Caller, addr: u64) -> Option<Run>
        requires spare { 0 < self.old.spare }

        // It is one step of the heap.
        ensures step { IsCall caller (HeapCall.Cut addr) (run_answer result) self.old self.new }

        // In the subject's words: the pages of the widest stretch that leaves such rests, or no page may go.
        ensures pages { MatchOption result (HasNoPagesAt addr self.old.plain) (IsRunCut addr self.old.plain) }
    {
        self.body().cut_pages(caller, addr)
    }
}
