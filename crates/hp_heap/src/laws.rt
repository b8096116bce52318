ghost use Rattle.std.specs.Prelude.{ℕ, List, Bool};
ghost use Rattle.hp_base.specs.declared.request.Request.{Request};
ghost use Rattle.hp_base.specs.declared.tag.Tag.{Tag};
ghost use Rattle.hp_base.specs.declared.span.Span.{Span};
ghost use Rattle.hp_heap.specs.PlainHeap.{PlainHeap};
ghost use Rattle.hp_heap.specs.Tiling.{IsApart, IsTiled};
ghost use Rattle.hp_heap.specs.Resizing.{CanAskSize};
ghost use Rattle.hp_heap.specs.BusyLaws.{AllocatesAlone, LeavesBusy};
ghost use Rattle.hp_heap.specs.HistoryLaws.{CallsAddRuns, EntriesAreAnswered};
ghost use Rattle.hp_heap.specs.Laws.{AllocatesPlace, CallsKeepSound, ComputesChoice, ComputesCut, CutsPages, FreesAlone, FrontsStand, InsertsAtHead, KeepsTiled, ResizesAlone, SortsByStamp, StandsOn, TakesNeighbours};

/// The computed choice is the choice. This law and the others here are proved of all heaps; their functions have no
/// code. Own.
pub fn choice_law()
    ensures { ComputesChoice }
{}

/// An allocation from a tiled heap gives the place in the choice. Own.
pub fn alloc_law()
    ensures { AllocatesPlace }
{}

/// Every call that is allowed leaves a tiled heap tiled. Own.
pub fn tiling_law()
    ensures { KeepsTiled }
{}

/// Where no two neighbours would be one, a joined element has taken at most its two neighbours. Own.
pub fn joining_law()
    ensures { (range : Span) (below above : List Span)
        → IsApart below → IsApart above → TakesNeighbours range below above }
{}

/// A call that is none of an allocation, a free and a resize leaves every busy element and every zone of a tiled heap.
/// Own.
pub fn busy_law()
    ensures { LeavesBusy }
{}

/// An allocation from a tiled heap leaves every other busy element, and where it is refused the heap; what is allocated
/// has its tag. Own.
pub fn alloc_alone_law()
    ensures { (participant : ℕ) (request : Request) (tag : Tag) (heap : PlainHeap)
        → IsTiled heap → AllocatesAlone participant request tag heap }
{}

/// A free of a tiled heap leaves every other busy element and every other zone as it was. Own.
pub fn free_law()
    ensures { (address : ℕ) (zone : Bool) (heap : PlainHeap) → IsTiled heap → FreesAlone address zone heap }
{}

/// A resize in a tiled heap leaves every other busy element and every other zone as it was. Own.
pub fn resize_law()
    ensures { (address size : ℕ) (heap : PlainHeap)
        → IsTiled heap → CanAskSize address size heap → ResizesAlone address size heap }
{}

/// A heap that stands for its legal history does so with one more entry. Own.
pub fn history_law()
    ensures { StandsOn }
{}

/// A call adds its own run to the runs of growths or to those of cuts, and no other. Own.
pub fn runs_law()
    ensures { CallsAddRuns }
{}

/// Each entry of a legal history has the answer of the heap that the entries before it leave. Own.
pub fn answers_law()
    ensures { EntriesAreAnswered }
{}

/// Every front of a legal history stands for a tiled heap. Own.
pub fn fronts_law()
    ensures { FrontsStand }
{}

/// What holds of every heap holds after each call. Own.
pub fn sound_law()
    ensures { CallsKeepSound }
{}

/// The computed cut is the widest stretch of whole pages that leaves rests. Own.
pub fn cut_law()
    ensures { ComputesCut }
{}

/// A cut of a tiled heap answers none exactly where no page goes, and else the run of exactly the pages that go. Own.
pub fn pages_law()
    ensures { CutsPages }
{}

/// A free list has its elements by falling stamp. Own.
pub fn list_law()
    ensures { (ranges : List Span) → SortsByStamp ranges }
{}

/// A free element that was inserted last stands at the head of its free list, and changes no other list. Own.
pub fn insertion_law()
    ensures { InsertsAtHead }
{}
