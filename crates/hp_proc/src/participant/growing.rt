//! A heap in a participant's hand gets pages, where some are granted.
ghost use Rattle.std.specs.Prelude.{◌≡◌, ◌+◌, ◌<◌, ◌≤◌, Some, None, IfNone, IfOk, IfSome, IsSome, OnErr, false, true};
ghost use Rattle.hp_base.specs.declared.tag.Tag.{Tag};
ghost use Rattle.hp_proc.specs.Allocating.{asking, after_asking, with_run};
ghost use Rattle.hp_serve.specs.Clocks.{RisesWithin, longest_growth, longest_wait};
ghost use Rattle.hp_proc.specs.Doing.{Deed, Doing};
ghost use Rattle.hp_proc.specs.Heaps.{page_sizes_for};
ghost use Rattle.hp_heap.specs.Allowed.{IsAllowed};
ghost use Rattle.hp_heap.specs.History.{IsCall};
ghost use Rattle.hp_heap.specs.declared.entry.HeapAnswer.TheVariants as gives;
ghost use Rattle.hp_heap.specs.declared.entry.HeapCall.TheVariants as call;
ghost use Rattle.hp_proc.specs.ParticipantView.{after_call};
ghost use Rattle.hp_proc.specs.Progress.{caller_of};
ghost use Rattle.hp_hall.specs.HallState.{IsBusy};
ghost use Rattle.hp_hall.specs.Naming.{naming_of};
ghost use Rattle.hp_proc.specs.LineInHall.{DoesHeld, HaltsHeld, HasRoom, HoldsIn, KeepsHeld};

use super::Participant;
use crate::page_sizes::page_sizes_for;
use crate::socket_heap::SocketHeap;
use hp_base::{Mapper, Request, Run};
use hp_hall::Waiting;
use hp_heap::Heap;
use hp_serve::{Decide, PagesAsked};
use std::alloc::AllocError;

impl<'p, M: Mapper, F: Decide + Copy + Drop> Participant<'p, M, F> {
    // Asks for pages for the heap in its hand, which takes the run in that is granted; it answers whether one was. Where somebody stopped
    // meanwhile the heap has taken the run in too, before the line ends.
    fn ask_in<H: Waiting>(
        &mut self,
        hall: &mut H,
        heap: &mut Heap,
        asked: &PagesAsked,
    ) -> Result<bool, AllocError>
        requires holds { HoldsIn self.old.party.me self.old heap.old (H.state hall.old) }
        requires its { asked.now.heap ≡ heap.old.plain.index }
        requires of_socket { IsSome heap.old.plain.serves }
        requires room { HasRoom 1 heap.old self.old }
        ensures does { IfOk result (λ granted. (tag : Tag) (otherwise : Doing)
            → DoesHeld self.old.party.me self.old self.new heap.old heap.new (H.state hall.old)
            (H.state hall.new) (Doing.Then (Deed.Ask asked.now) (with_run asked.now.heap asked.now.request tag otherwise))
            (after_asking asked.now.heap asked.now.request tag otherwise granted)) }
        ensures halts { OnErr result ((tag : Tag) (otherwise : Doing)
            → HaltsHeld self.old.party.me self.old self.new heap.old heap.new (H.state hall.old)
            (H.state hall.new) (Doing.Then (Deed.Ask asked.now) (with_run asked.now.heap asked.now.request tag otherwise))) }
        ensures clock { RisesWithin H.pending (λ hall. IsBusy (H.state hall)) (longest_wait self.old.party.deadline)
            (H.state hall.old).clock (H.state hall.new).clock }
        ensures keeps { KeepsHeld self.old.party.me self.old self.new heap.old heap.new (H.state hall.old) (H.state hall.new) }
        ensures says { naming_of heap.new.plain ≡ naming_of heap.old.plain }
        ensures goes_on { H.goes_on hall.old hall.new }
        ensures passed { IfOk result (λ granted. granted ≡ false → (heap.new ≡ heap.old) × (self.new.context ≡ self.old.context)) }
        ensures spare { heap.old.spare ≤ heap.new.spare + 1 }
        ensures more { self.new.context.calls ≤ self.old.context.calls + 1 }
    {
        let answered = self.ask(hall, asked)?;
        let granted = self.grow_by(heap, answered.run);
        if answered.stopped {
            return Err(AllocError);
        }
        Ok(granted)
    }

    // The heap in its hand takes in the run that was granted, where one was, and it answers whether one was.
    fn grow_by(&mut self, heap: &mut Heap, run: Option<Run>) -> bool
        requires allowed { IfSome run (λ run. IsAllowed self.old.party.me (call.Grow run) heap.old.plain) }
        requires room { HasRoom 1 heap.old self.old }
        ensures none { IfNone run ((result ≡ false) × (heap.new ≡ heap.old) × (self.new ≡ self.old)) }
        ensures some { IfSome run (λ run. (result ≡ true) × (self.new ≡ after_call self.old)
            × IsCall (caller_of self.old) (call.Grow run) gives.Done heap.old heap.new) }
    {
        match run {
            None => false,
            Some(run) => {
                self.grow_in(heap, &run);
                true
            }
        }
    }

    // Asks for pages for the heap in its hand, page size after page size, until a run is granted; it answers whether one was.
    pub(crate) fn grow<H: Waiting>(
        &mut self,
        hall: &mut H,
        heap: &mut Heap,
        place: &SocketHeap,
        request: &Request,
    ) -> Result<bool, AllocError>
        requires holds { HoldsIn self.old.party.me self.old heap.old (H.state hall.old) }
        requires its { place.now.index ≡ heap.old.plain.index }
        requires of_socket { heap.old.plain.serves ≡ Some place.now.socket }
        requires room { HasRoom 1 heap.old self.old }
        ensures does { IfOk result (λ granted. (tag : Tag) (otherwise : Doing)
            → DoesHeld self.old.party.me self.old self.new heap.old heap.new (H.state hall.old)
            (H.state hall.new) (asking place.now.index place.now.socket request.now tag otherwise
            (page_sizes_for self.old.context.pools place.now.socket request.now.flags)) (after_asking place.now.index
            request.now tag otherwise granted)) }
        ensures halts { OnErr result ((tag : Tag) (otherwise : Doing)
            → HaltsHeld self.old.party.me self.old self.new heap.old heap.new (H.state hall.old)
            (H.state hall.new) (asking place.now.index place.now.socket request.now tag otherwise
            (page_sizes_for self.old.context.pools place.now.socket request.now.flags))) }
        ensures clock { RisesWithin H.pending (λ hall. IsBusy (H.state hall)) (longest_growth self.old.party.deadline)
            (H.state hall.old).clock (H.state hall.new).clock }
        ensures keeps { KeepsHeld self.old.party.me self.old self.new heap.old heap.new (H.state hall.old) (H.state hall.new) }
        ensures says { naming_of heap.new.plain ≡ naming_of heap.old.plain }
        ensures goes_on { H.goes_on hall.old hall.new }
        ensures spare { heap.old.spare ≤ heap.new.spare + 1 }
        ensures more { self.new.context.calls ≤ self.old.context.calls + 1 }
    {
        let pages = page_sizes_for(
            self.context.alloc,
            self.context.pools(),
            place.socket,
            request.flags,
        )?;
        for page in &pages {
            let asked = PagesAsked {
                heap: place.index,
                socket: place.socket,
                page: *page,
                request: *request,
            };
            if self.ask_in(hall, heap, &asked)? {
                return Ok(true);
            }
        }
        Ok(false)
    }
}
