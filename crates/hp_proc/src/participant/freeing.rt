//! What a line does with the element that it found in the heap in its participant's hand: it frees it, or resizes it.
ghost use Rattle.std.specs.Prelude.{◌≡◌, ◌+◌, ◌^◌, ◌<◌, ◌≤◌, Some, None, Bool, false, true};
ghost use Rattle.hp_heap.specs.History.{IsCall};
ghost use Rattle.hp_heap.specs.Resizing.{CanAskSize};
ghost use Rattle.hp_heap.specs.Step.{resize_answer};
ghost use Rattle.hp_heap.specs.declared.entry.HeapCall.TheVariants as call;
ghost use Rattle.hp_script.specs.declared.answer.Answer.TheVariants as gives;
ghost use Rattle.hp_proc.specs.Freeing.{MayAct, acting, cutting, freeing, left_of, resized_answer};
ghost use Rattle.hp_proc.specs.ParticipantView.{after_call};
ghost use Rattle.hp_proc.specs.Progress.{caller_of};
ghost use Rattle.hp_proc.specs.declared.searched_heap.SearchedHeap.{SearchedHeap};
ghost use Rattle.hp_hall.specs.HallState.{OthersStay};
ghost use Rattle.hp_hall.specs.Naming.{naming_of};
ghost use Rattle.hp_proc.specs.LineInHall.{DoesHeld, HasRoom, HoldsIn, KeepsHeld};

use super::Participant;
use crate::element_act::{ElementAct, Left};
use crate::searched_heap::SearchedHeap;
use hp_base::Mapper;
use hp_hall::Hall;
use hp_heap::{FreeFault, Heap};
use hp_script::Answer;
use hp_serve::Decide;
use std::alloc::AllocError;

impl<'p, M: Mapper, F: Decide + Copy + Drop> Participant<'p, M, F> {
    // Frees the element at an address in the heap in its hand, whose whole pages it then gives up.
    fn free_held<H: Hall>(
        &mut self,
        hall: &mut H,
        heap: &mut Heap,
        place: &SearchedHeap,
        addr: u64,
    ) -> Left
        requires holds { HoldsIn self.old.party.me self.old heap.old (H.state hall.old) }
        requires its { place.now.index ≡ heap.old.plain.index }
        requires of_socket { place.now.serves ≡ heap.old.plain.serves }
        requires room { HasRoom 2 heap.old self.old }
        ensures does { DoesHeld self.old.party.me self.old self.new heap.old heap.new (H.state hall.old)
            (H.state hall.new) (freeing place.now addr) (left_of place.now.index result) }
        ensures keeps { KeepsHeld self.old.party.me self.old self.new heap.old heap.new (H.state hall.old) (H.state hall.new) }
        ensures others { OthersStay self.old.party.me (H.state hall.old) (H.state hall.new) }
        ensures goes_on { H.goes_on hall.old hall.new }
    {
        match self.free_in(heap, addr) {
            Err(FreeFault::NotAnElement { .. }) => Left::Answered {
                answer: Answer::NoElement,
            },
            Err(FreeFault::IsZone { .. }) => Left::Answered {
                answer: Answer::IsZone,
            },
            Ok(()) => self.cut_held(hall, heap, place, addr),
        }
    }

    // Gives up the whole pages of the free element at an address in the heap in its hand, where that is one of a socket.
    pub(crate) fn cut_held<H: Hall>(
        &mut self,
        hall: &mut H,
        heap: &mut Heap,
        place: &SearchedHeap,
        addr: u64,
    ) -> Left
        requires holds { HoldsIn self.old.party.me self.old heap.old (H.state hall.old) }
        requires its { place.now.index ≡ heap.old.plain.index }
        requires of_socket { place.now.serves ≡ heap.old.plain.serves }
        requires room { HasRoom 1 heap.old self.old }
        ensures does { DoesHeld self.old.party.me self.old self.new heap.old heap.new (H.state hall.old)
            (H.state hall.new) (cutting place.now addr) (left_of place.now.index result) }
        ensures keeps { KeepsHeld self.old.party.me self.old self.new heap.old heap.new (H.state hall.old) (H.state hall.new) }
        ensures says { naming_of heap.new.plain ≡ naming_of heap.old.plain }
        ensures others { OthersStay self.old.party.me (H.state hall.old) (H.state hall.new) }
        ensures goes_on { H.goes_on hall.old hall.new }
    {
        let done = Left::Answered {
            answer: Answer::Done,
        };
        if place.serves.is_none() {
            return done;
        }
        match self.cut_in(heap, addr) {
            None => done,
            Some(run) => {
                self.retire(hall, place.index, &run);
                Left::GaveUp { run }
            }
        }
    }

    // Gives the element at an address in the heap in its hand another size, but a memzone's.
    fn resize_held(&mut self, heap: &mut Heap, addr: u64, zone: bool, size: u64) -> Answer
        requires may { zone ≡ false → CanAskSize addr size heap.old.plain }
        requires spare { 1 ≤ heap.old.spare }
        requires counted { self.old.context.calls + 1 < 2 ^ 64 }
        ensures zone { zone ≡ true → (result ≡ gives.IsZone) × (heap.new ≡ heap.old) × (self.new ≡ self.old) }
        ensures resized { zone ≡ false → (had : Bool) × (result ≡ resized_answer had) × (self.new ≡ after_call self.old)
            × IsCall (caller_of self.old) (call.Resize addr size) (resize_answer had) heap.old heap.new }
    {
        if zone {
            return Answer::IsZone;
        }
        if self.resize_in(heap, addr, size) {
            Answer::Yes
        } else {
            Answer::No
        }
    }

    // Acts on the element at an address in the heap in its hand.
    pub(crate) fn act_held<H: Hall>(
        &mut self,
        hall: &mut H,
        heap: &mut Heap,
        place: &SearchedHeap,
        addr: u64,
        action: ElementAct,
    ) -> Left
        requires may { MayAct action addr heap.old.plain }
        requires holds { HoldsIn self.old.party.me self.old heap.old (H.state hall.old) }
        requires its { place.now.index ≡ heap.old.plain.index }
        requires of_socket { place.now.serves ≡ heap.old.plain.serves }
        requires room { HasRoom 2 heap.old self.old }
        ensures does { DoesHeld self.old.party.me self.old self.new heap.old heap.new (H.state hall.old)
            (H.state hall.new) (acting action place.now addr) (left_of place.now.index result) }
        ensures keeps { KeepsHeld self.old.party.me self.old self.new heap.old heap.new (H.state hall.old) (H.state hall.new) }
        ensures others { OthersStay self.old.party.me (H.state hall.old) (H.state hall.new) }
        ensures goes_on { H.goes_on hall.old hall.new }
    {
        match action {
            ElementAct::Free => self.free_held(hall, heap, place, addr),
            ElementAct::Resize { zone, size } => Left::Answered {
                answer: self.resize_held(heap, addr, zone, size),
            },
        }
    }
}
