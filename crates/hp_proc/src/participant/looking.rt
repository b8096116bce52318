//! A line looks for its element in heaps, and acts on it where it is there.
ghost use Rattle.std.specs.Prelude.{◌≡◌, ◌<◌, ℕ, [], ◌∷◌, List, Some, None, IfOk, OnErr, Contains, false, map};
ghost use Rattle.hp_base.specs.declared.tag.Tag.{Tag};
ghost use Rattle.hp_script.specs.ShapeWords.Acts.{label_used};
ghost use Rattle.hp_proc.specs.Allocating.{unless_answered};
ghost use Rattle.hp_serve.specs.Clocks.{RisesWithin, longest_wait};
ghost use Rattle.hp_proc.specs.Contexts.{AreFactsOf, IsPlaceOf};
ghost use Rattle.hp_proc.specs.Courses.{maker_from};
ghost use Rattle.hp_proc.specs.Doing.{Doing};
ghost use Rattle.hp_proc.specs.Freeing.{FitsTag, IsSizedWell, act_for, acting, after_looking, left_of, looking};
ghost use Rattle.hp_proc.specs.LineTrees.{on_made};
ghost use Rattle.hp_proc.specs.Lines.{Facts, is_own_maker, reading_names};
ghost use Rattle.hp_proc.specs.PlaceLists.{place_list};
ghost use Rattle.hp_proc.specs.SharedNames.{SharedNames};
ghost use Rattle.hp_proc.specs.Progress.{AreOnce};
ghost use Rattle.hp_proc.specs.declared.searched_heap.SearchedHeap.{SearchedHeap};
ghost use Rattle.hp_hall.specs.HallState.{IsBusy, OthersStay};
ghost use Rattle.hp_proc.specs.LineInHall.{DoesApartHere, DoesHeld, DoesHere, DoesOnceHere, FindsPlaces, HaltsHere, HasCalled, HasRoom, HoldsIn, IsReadyIn, KeepsHeld};

use super::Participant;
use crate::element_act::{ElementAct, Left};
use crate::lookup::{act_for, is_own, is_zone};
use crate::place_lists::{Places, one_place};
use crate::searched_heap::SearchedHeap;
use hp_base::{Mapper, Tag};
use hp_hall::{Hall, Waiting};
use hp_heap::Heap;
use hp_script::{Answer, Line, Token};
use hp_serve::Decide;
use std::alloc::AllocError;

// The calls of one heap that such a line makes at most: a search, a free, a cut.
const CALLS: usize = 3;

impl<'p, M: Mapper, F: Decide + Copy + Drop> Participant<'p, M, F> {
    // Looks for the element with a tag in the heap in its hand, and acts on it where it is there.
    fn look_held<H: Hall>(
        &mut self,
        hall: &mut H,
        heap: &mut Heap,
        place: &SearchedHeap,
        tag: Tag,
        action: ElementAct,
    ) -> Option<Left>
        requires size { FitsTag tag action }
        requires holds { HoldsIn self.old.party.me self.old heap.old (H.state hall.old) }
        requires its { place.now.index ≡ heap.old.plain.index }
        requires of_socket { place.now.serves ≡ heap.old.plain.serves }
        requires room { HasRoom 3 heap.old self.old }
        ensures does { (places : List SearchedHeap) → DoesHeld self.old.party.me self.old self.new heap.old heap.new (H.state hall.old)
            (H.state hall.new) (looking tag (acting action) (place.now
            ∷ places)) (after_looking place.now.index (looking tag (acting action) places) result) }
        ensures keeps { KeepsHeld self.old.party.me self.old self.new heap.old heap.new (H.state hall.old) (H.state hall.new) }
        ensures others { OthersStay self.old.party.me (H.state hall.old) (H.state hall.new) }
        ensures goes_on { H.goes_on hall.old hall.new }
    {
        let addr = self.find_in(heap, tag)?;
        Some(self.act_held(hall, heap, place, addr, action))
    }

    // Tells the coordinator of a run that was given up, where one was; it answers the line then.
    pub(crate) fn tell<H: Waiting>(
        &mut self,
        hall: &mut H,
        heap: u32,
        left: Left,
    ) -> Result<Answer, AllocError>
        requires ready { IsReadyIn self.old.party.me self.old (H.state hall.old) }
        ensures does { IfOk result (λ given. DoesHere [] self.old.party.me self.old self.new (H.state hall.old)
            (H.state hall.new) (left_of heap left) (Doing.Ended given)) }
        ensures halts { OnErr result (HaltsHere [] self.old.party.me self.old self.new (H.state hall.old)
            (H.state hall.new) (left_of heap left)) }
        ensures clock { RisesWithin H.pending (λ hall. IsBusy (H.state hall)) (longest_wait self.old.party.deadline)
            (H.state hall.old).clock (H.state hall.new).clock }
        ensures ready { HasCalled self.old.party.me self.old self.new (H.state hall.new) }
        ensures goes_on { H.goes_on hall.old hall.new }
    {
        match left {
            Left::Answered { answer } => Ok(answer),
            Left::GaveUp { run } => {
                self.notify(hall, heap, &run)?;
                Ok(Answer::Done)
            }
        }
    }

    // Holds a heap while it looks for the element with a tag there, and acts on it where it is there. What is then left of the line has no
    // heap in hand.
    fn look_there<H: Waiting>(
        &mut self,
        hall: &mut H,
        place: &SearchedHeap,
        tag: Tag,
        action: ElementAct,
    ) -> Result<Option<Left>, AllocError>
        requires size { FitsTag tag action }
        requires place { IsPlaceOf self.old.context.pools place.now }
        requires ready { IsReadyIn self.old.party.me self.old (H.state hall.old) }
        ensures does { IfOk result (λ left. (places : List SearchedHeap)
            → DoesHere (place.now.index ∷ []) self.old.party.me self.old self.new (H.state hall.old)
            (H.state hall.new) (looking tag (acting action) (place.now
            ∷ places)) (after_looking place.now.index (looking tag (acting action) places) left)) }
        ensures halts { OnErr result ((places : List SearchedHeap)
            → HaltsHere (place.now.index ∷ []) self.old.party.me self.old self.new (H.state hall.old)
            (H.state hall.new) (looking tag (acting action) (place.now ∷ places))) }
        ensures clock { RisesWithin H.pending (λ hall. IsBusy (H.state hall)) 0 (H.state hall.old).clock (H.state hall.new).clock }
        ensures ready { HasCalled self.old.party.me self.old self.new (H.state hall.new) }
        ensures goes_on { H.goes_on hall.old hall.new }
    {
        let (mut heap, pen) = self.hold(hall, place.index, CALLS)?;
        let left = self.look_held(hall, &mut heap, place, tag, action);
        self.put(hall, heap, pen);
        Ok(left)
    }

    // Looks for the element with a tag in a heap, and acts on it where it is there. The answer is the line's, or none where it is not.
    fn look_in<H: Waiting>(
        &mut self,
        hall: &mut H,
        place: &SearchedHeap,
        tag: Tag,
        action: ElementAct,
    ) -> Result<Option<Answer>, AllocError>
        requires size { FitsTag tag action }
        requires place { IsPlaceOf self.old.context.pools place.now }
        requires ready { IsReadyIn self.old.party.me self.old (H.state hall.old) }
        ensures does { IfOk result (λ given. (places : List SearchedHeap)
            → DoesHere (place.now.index ∷ []) self.old.party.me self.old self.new (H.state hall.old)
            (H.state hall.new) (looking tag (acting action) (place.now
            ∷ places)) (unless_answered (looking tag (acting action) places) given)) }
        ensures halts { OnErr result ((places : List SearchedHeap)
            → HaltsHere (place.now.index ∷ []) self.old.party.me self.old self.new (H.state hall.old)
            (H.state hall.new) (looking tag (acting action) (place.now ∷ places))) }
        ensures clock { RisesWithin H.pending (λ hall. IsBusy (H.state hall)) (longest_wait self.old.party.deadline)
            (H.state hall.old).clock (H.state hall.new).clock }
        ensures passed { IfOk result (λ given. given ≡ None → RisesWithin H.pending (λ hall. IsBusy (H.state hall)) 0
            (H.state hall.old).clock (H.state hall.new).clock) }
        ensures ready { HasCalled self.old.party.me self.old self.new (H.state hall.new) }
        ensures goes_on { H.goes_on hall.old hall.new }
    {
        let Some(left) = self.look_there(hall, place, tag, action)? else {
            return Ok(None);
        };
        let answer = self.tell(hall, place.index, left)?;
        Ok(Some(answer))
    }

    // Looks for the element with a tag in heaps, one after another, and acts on it in the first that has it.
    fn look_for<H: Waiting>(
        &mut self,
        hall: &mut H,
        places: &[SearchedHeap],
        tag: Tag,
        action: ElementAct,
    ) -> Result<Answer, AllocError>
        requires size { FitsTag tag action }
        requires places { (place : SearchedHeap) → Contains places.now place → IsPlaceOf self.old.context.pools place }
        requires apart { AreOnce (map (λ place. place.index) places.now) }
        requires ready { IsReadyIn self.old.party.me self.old (H.state hall.old) }
        ensures does { IfOk result (λ given. DoesOnceHere self.old.party.me self.old self.new (H.state hall.old)
            (H.state hall.new) (looking tag (acting action) places.now) (Doing.Ended given)) }
        ensures halts { OnErr result (HaltsHere (map (λ place. place.index) places.now) self.old.party.me self.old self.new (H.state hall.old)
            (H.state hall.new) (looking tag (acting action) places.now)) }
        ensures clock { RisesWithin H.pending (λ hall. IsBusy (H.state hall)) (longest_wait self.old.party.deadline)
            (H.state hall.old).clock (H.state hall.new).clock }
        ensures ready { HasCalled self.old.party.me self.old self.new (H.state hall.new) }
        ensures goes_on { H.goes_on hall.old hall.new }
    {
        for place in places {
            if let Some(answer) = self.look_in(hall, place, tag, action)? {
                return Ok(answer);
            }
        }
        Ok(Answer::NoElement)
    }

    // The heaps in which it looks for what a line made: that of its own element, or all that have a name, for which it reads the names.
    fn places_for<H: Waiting>(
        &mut self,
        hall: &mut H,
        maker: &Line<'_>,
    ) -> Result<Places, AllocError>
        requires ready { IsReadyIn self.old.party.me self.old (H.state hall.old) }
        ensures does { IfOk result (λ places. FindsPlaces self.old.party.me self.old self.new (maker_from maker.now) (place_list places)
            (hall.new ≡ hall.old) (H.state hall.old) (H.state hall.new)) }
        ensures halts { OnErr result ((is_own_maker self.old.party.me (maker_from maker.now) ≡ false)
            × ((goes : SharedNames → Doing) → HaltsHere [] self.old.party.me self.old self.new (H.state hall.old)
            (H.state hall.new) (reading_names goes))) }
        ensures ready { HasCalled self.old.party.me self.old self.new (H.state hall.new) }
        ensures clock { RisesWithin H.pending (λ hall. IsBusy (H.state hall)) 0 (H.state hall.old).clock (H.state hall.new).clock }
        ensures goes_on { H.goes_on hall.old hall.new }
    {
        if is_own(self.number(), maker) {
            return Ok(one_place(self.context.place_of(maker.line)));
        }
        self.read_places(hall)
    }

    // Acts on the element that a label or name stands for: it is freed, or gets a size, where one is given.
    pub(crate) fn act_on<H: Waiting>(
        &mut self,
        hall: &mut H,
        line: &Line<'_>,
        label: &Token<'_>,
        size: Option<u64>,
    ) -> Result<Answer, AllocError>
        requires label { label_used line.now.act ≡ Some label.now }
        requires size { IsSizedWell (act_for false size) }
        requires ready { IsReadyIn self.old.party.me self.old (H.state hall.old) }
        ensures does { IfOk result (λ given. (facts : Facts) → AreFactsOf self.old.party.socket self.old.context line.now facts
            → DoesApartHere self.old.party.me self.old self.new (H.state hall.old)
            (H.state hall.new) (on_made self.old.party.me facts
            (λ tag. looking tag (acting (act_for tag.zone size))) facts.maker) (Doing.Ended given)) }
        ensures halts { OnErr result ((facts : Facts) → AreFactsOf self.old.party.socket self.old.context line.now facts
            → (heaps : List ℕ) × AreOnce heaps × HaltsHere heaps self.old.party.me self.old self.new (H.state hall.old)
            (H.state hall.new) (on_made self.old.party.me facts
            (λ tag. looking tag (acting (act_for tag.zone size))) facts.maker)) }
        ensures clock { RisesWithin H.pending (λ hall. IsBusy (H.state hall)) (longest_wait self.old.party.deadline)
            (H.state hall.old).clock (H.state hall.new).clock }
        ensures ready { HasCalled self.old.party.me self.old self.new (H.state hall.new) }
        ensures goes_on { H.goes_on hall.old hall.new }
    {
        let Some(maker) = self.context.maker_of(label) else {
            return Ok(Answer::NoElement);
        };
        let places = self.places_for(hall, maker)?;
        let zone = is_zone(&maker.act);
        let tag = Tag {
            who: self.number(),
            zone,
            number: maker.line,
        };
        let action = act_for(zone, size);
        self.look_for(hall, places.as_slice(), tag, action)
    }
}
