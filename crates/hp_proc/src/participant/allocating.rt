//! An allocation: its heaps are tried one after another, and each may grow.
ghost use Rattle.std.specs.List.{All};
ghost use Rattle.std.specs.Prelude.{◌≡◌, ◌*◌, ◌<◌, [], ◌∷◌, List, Some, None, IfOk, OnErr, OnOk, map, length, Contains, true};
ghost use Rattle.hp_base.specs.declared.limits.TheConstants.{MAX_HEAPS};
ghost use Rattle.hp_base.specs.declared.tag.Tag.{Tag};
ghost use Rattle.hp_script.specs.Part.{Part};
ghost use Rattle.hp_script.specs.declared.answer.Answer.{Answer};
ghost use Rattle.hp_script.specs.declared.line.Act.TheVariants as act;
ghost use Rattle.hp_proc.specs.Allocating.{serving, trying};
ghost use Rattle.hp_serve.specs.Clocks.{RisesWithin, longest_allocation, longest_growth};
ghost use Rattle.hp_proc.specs.Contexts.{IsNextLine, IsPlaceOf};
ghost use Rattle.hp_proc.specs.Doing.{Doing};
ghost use Rattle.hp_proc.specs.Heaps.{NamedHeap};
ghost use Rattle.hp_proc.specs.ParticipantView.{after_answer};
ghost use Rattle.hp_proc.specs.PlaceLists.{place_list, place_named};
ghost use Rattle.hp_proc.specs.Progress.{AreOnce, Brings, IsAllocation, Tries};
ghost use Rattle.hp_proc.specs.declared.searched_heap.SearchedHeap.{SearchedHeap};
ghost use Rattle.hp_hall.specs.HallState.{IsBusy};
ghost use Rattle.hp_hall.specs.declared.slot.TheConstants.{NAMES_SLOT};
ghost use Rattle.hp_proc.specs.LineInHall.{ChoosesPlaces, DoesLineHere, HaltsHeld, HaltsHere, HaltsLineHere, HasCalled, HasCalledBeside, HasNamesOut, HasRoom, HoldsIn, IsBesideTheNames, IsKnownMapped, IsMapped, IsReadyAgain, IsReadyBut, IsReadyIn, KeepsHeld, MayGiveBeside, StopsChoosing, did_in, moment, moment_with};
ghost use Rattle.hp_proc.specs.ZonesInHand.{AgreeOnceAnswered, AgreeOnceAnsweredIn, answer_of, last_answer_of, last_heap_of};

use super::Participant;
use crate::page_sizes::first_flags;
use crate::place_lists::{Places, one_place};
use crate::searched_heap::SearchedHeap;
use crate::socket_heap::SocketHeap;
use hp_base::{Mapper, Request, Tag};
use hp_hall::Waiting;
use hp_heap::Heap;
use hp_script::{Answer, Line, Options};
use hp_serve::Decide;
use std::alloc::AllocError;

// The calls of one heap that an allocation makes at most: a search, a growth, a search.
const CALLS: usize = 3;

// A request with other flags.
fn with_flags(request: &Request, flags: u32) -> Request
    ensures { result ≡ record request.now { flags = flags } }
{
    Request {
        size: request.size,
        align: request.align,
        bound: request.bound,
        flags,
    }
}

impl<'p, M: Mapper, F: Decide + Copy + Drop> Participant<'p, M, F> {
    // Searches the heap in its hand. Without an address there it asks for pages, and where some are granted it searches again. The
    // answer is the line's, or none where the heap is passed.
    fn allocate_held<H: Waiting>(
        &mut self,
        hall: &mut H,
        heap: &mut Heap,
        place: &SearchedHeap,
        request: &Request,
        tag: Tag,
    ) -> Result<Option<Answer>, AllocError>
        requires holds { HoldsIn self.old.party.me self.old heap.old (H.state hall.old) }
        requires its { place.now.index ≡ heap.old.plain.index }
        requires of_socket { heap.old.plain.serves ≡ place.now.serves }
        requires room { HasRoom 3 heap.old self.old }
        requires beside { MayGiveBeside self.old.party.me (H.state hall.old) }
        requires named { tag.zone ≡ true → HasNamesOut self.old.party.me (H.state hall.old) }
        ensures does { IfOk result (λ given. (its : NamedHeap) (heaps : List NamedHeap) → place_named its ≡ place.now
            → Tries place.now.index [] (H.state hall.old).count
            (did_in self.old.party.me (H.state hall.old)
            (H.state hall.new)) (trying self.old.context.pools request.now tag (its ∷ heaps)) (trying self.old.context.pools request.now tag heaps) given
            (moment_with heap.old self.old.party.me self.old (H.state hall.old))
            (moment_with heap.new self.old.party.me self.new (H.state hall.new))) }
        ensures halts { OnErr result ((its : NamedHeap) (heaps : List NamedHeap) → place_named its ≡ place.now
            → HaltsHeld self.old.party.me self.old self.new heap.old heap.new (H.state hall.old)
            (H.state hall.new) (trying self.old.context.pools request.now tag (its ∷ heaps))) }
        ensures lies { IfOk result (λ given. (answer : Answer) → given ≡ Some answer
            → IsKnownMapped self.old.party.me (H.state hall.new) answer) }
        ensures clock { RisesWithin H.pending (λ hall. IsBusy (H.state hall)) (longest_growth self.old.party.deadline)
            (H.state hall.old).clock (H.state hall.new).clock }
        ensures keeps { KeepsHeld self.old.party.me self.old self.new heap.old heap.new (H.state hall.old) (H.state hall.new) }
        ensures names { IsBesideTheNames self.old.party.me (H.state hall.old) (H.state hall.new) }
        ensures agrees { AgreeOnceAnsweredIn self.old.party.me tag (answer_of result) heap.old heap.new
            ((H.state hall.old).part self.old.party.me) ((H.state hall.new).part self.old.party.me) }
        ensures goes_on { H.goes_on hall.old hall.new }
    {
        let first = with_flags(request, first_flags(place.serves, request.flags));
        if let Some(addr) = self.allocate_in(heap, &first, tag) {
            return Ok(Some(Answer::Address { addr }));
        }
        let Some(socket) = place.serves else {
            return Ok(None);
        };
        let grows = SocketHeap {
            index: place.index,
            socket,
        };
        if !self.grow(hall, heap, &grows, request)? {
            return Ok(None);
        }
        match self.allocate_in(heap, request, tag) {
            Some(addr) => Ok(Some(Answer::Address { addr })),
            None => Ok(Some(Answer::None)),
        }
    }

    // Tries a heap for a request. The answer is the line's, or none where the heap is passed.
    fn try_heap<H: Waiting>(
        &mut self,
        hall: &mut H,
        place: &SearchedHeap,
        request: &Request,
        tag: Tag,
    ) -> Result<Option<Answer>, AllocError>
        requires place { IsPlaceOf self.old.context.pools place.now }
        requires ready { IsReadyBut NAMES_SLOT self.old.party.me self.old (H.state hall.old) }
        requires beside { MayGiveBeside self.old.party.me (H.state hall.old) }
        requires named { tag.zone ≡ true → HasNamesOut self.old.party.me (H.state hall.old) }
        ensures does { IfOk result (λ given. (its : NamedHeap) (heaps : List NamedHeap) → place_named its ≡ place.now
            → Tries place.now.index (place.now.index ∷ []) (H.state hall.old).count
            (did_in self.old.party.me (H.state hall.old)
            (H.state hall.new)) (trying self.old.context.pools request.now tag (its ∷ heaps)) (trying self.old.context.pools request.now tag heaps) given
            (moment self.old.party.me self.old (H.state hall.old)) (moment self.old.party.me self.new (H.state hall.new))) }
        ensures halts { OnErr result ((its : NamedHeap) (heaps : List NamedHeap) → place_named its ≡ place.now
            → HaltsHere (place.now.index ∷ []) self.old.party.me self.old self.new (H.state hall.old)
            (H.state hall.new) (trying self.old.context.pools request.now tag (its ∷ heaps))) }
        ensures lies { IfOk result (λ given. (answer : Answer) → given ≡ Some answer
            → IsKnownMapped self.old.party.me (H.state hall.new) answer) }
        ensures clock { RisesWithin H.pending (λ hall. IsBusy (H.state hall)) (longest_growth self.old.party.deadline)
            (H.state hall.old).clock (H.state hall.new).clock }
        ensures ready { HasCalledBeside self.old.party.me self.old self.new (H.state hall.old) (H.state hall.new) }
        ensures agrees { AgreeOnceAnswered tag (answer_of result) place.now.index
            ((H.state hall.old).part self.old.party.me) ((H.state hall.new).part self.old.party.me) }
        ensures goes_on { H.goes_on hall.old hall.new }
    {
        let (mut heap, pen) = self.hold(hall, place.index, CALLS)?;
        let given = self.allocate_held(hall, &mut heap, place, request, tag);
        self.put(hall, heap, pen);
        given
    }

    // Serves a request from the first of the heaps that has or gets memory for it. Beside the answer stands the heap that was tried last. The
    // names are free meanwhile, or, for a memzone, in its hand.
    pub(crate) fn serve_request<H: Waiting>(
        &mut self,
        hall: &mut H,
        places: &[SearchedHeap],
        request: &Request,
        tag: Tag,
    ) -> Result<(Answer, u32), AllocError>
        requires places { (place : SearchedHeap) → Contains places.now place → IsPlaceOf self.old.context.pools place }
        requires apart { AreOnce (map (λ place. place.index) places.now) }
        requires ready { IsReadyBut NAMES_SLOT self.old.party.me self.old (H.state hall.old) }
        requires beside { MayGiveBeside self.old.party.me (H.state hall.old) }
        requires named { tag.zone ≡ true → HasNamesOut self.old.party.me (H.state hall.old) }
        ensures does { IfOk result (λ given. (heaps : List NamedHeap) → map place_named heaps ≡ places.now
            → Brings given.1 (H.state hall.old).count
            (did_in self.old.party.me (H.state hall.old)
            (H.state hall.new)) (serving self.old.context.pools request.now tag heaps) given.0
            (moment self.old.party.me self.old (H.state hall.old)) (moment self.old.party.me self.new (H.state hall.new))) }
        ensures halts { OnErr result ((heaps : List NamedHeap) → map place_named heaps ≡ places.now
            → HaltsHere (map (λ place. place.index) places.now) self.old.party.me self.old self.new (H.state hall.old)
            (H.state hall.new) (serving self.old.context.pools request.now tag heaps)) }
        ensures lies { IfOk result (λ given. IsKnownMapped self.old.party.me (H.state hall.new) given.0) }
        ensures few { IfOk result (λ given. given.1 < MAX_HEAPS) }
        ensures clock { RisesWithin H.pending (λ hall. IsBusy
            (H.state hall)) (length places.now * longest_growth self.old.party.deadline) (H.state hall.old).clock (H.state hall.new).clock }
        ensures ready { HasCalledBeside self.old.party.me self.old self.new (H.state hall.old) (H.state hall.new) }
        ensures agrees { AgreeOnceAnswered tag (last_answer_of result) (last_heap_of result)
            ((H.state hall.old).part self.old.party.me) ((H.state hall.new).part self.old.party.me) }
        ensures goes_on { H.goes_on hall.old hall.new }
    {
        if places.is_empty() {
            return Ok((Answer::NoHeap, 0));
        }
        let mut last = 0;
        for place in places {
            last = place.index;
            if let Some(answer) = self.try_heap(hall, place, request, tag)? {
                return Ok((answer, last));
            }
        }
        Ok((Answer::None, last))
    }

    // Notes in which heap the element of its line lies, where the line was answered with an address.
    fn note_answer(&mut self, line: u32, answer: Answer, heap: u32) -> Result<(), AllocError>
        requires next { All (λ element. element.line < line) self.old.context.standing.elements }
        requires few { heap < MAX_HEAPS }
        ensures noted { OnOk result (self.new ≡ after_answer line heap answer self.old) }
        ensures err { OnErr result (self.new ≡ self.old) }
    {
        if let Answer::Address { .. } = answer {
            self.context.note_element(line, heap)?;
        }
        Ok(())
    }

    // Makes room for the element of its line.
    fn reserve_element(&mut self) -> Result<(), AllocError>
        ensures { self.new ≡ self.old }
    {
        self.context.reserve_element()
    }

    // The heaps that its allocation tries, in their order: the one of a name, for which it reads the names, or those by the socket.
    fn heaps_to_try<H: Waiting>(
        &mut self,
        hall: &mut H,
        options: &Options<'_>,
    ) -> Result<Places, AllocError>
        requires ready { IsReadyIn self.old.party.me self.old (H.state hall.old) }
        ensures does { IfOk result (λ places. ChoosesPlaces self.old.party.me self.old self.new options.now (place_list places)
            (hall.new ≡ hall.old) (H.state hall.old) (H.state hall.new)) }
        ensures halts { OnErr result (StopsChoosing self.old.party.me self.old self.new options.now.heap (H.state hall.old)
            (H.state hall.new)) }
        ensures ready { HasCalled self.old.party.me self.old self.new (H.state hall.new) }
        ensures clock { RisesWithin H.pending (λ hall. IsBusy (H.state hall)) 0 (H.state hall.old).clock (H.state hall.new).clock }
        ensures goes_on { H.goes_on hall.old hall.new }
    {
        match &options.heap {
            Some(name) => {
                let place = self.read_place(hall, name)?;
                Ok(one_place(place))
            }
            None => {
                let own = self.judged.server.socket();
                let places = self.context.heaps_for(own, options.socket)?;
                Ok(places)
            }
        }
    }

    // Serves the request of an allocation line.
    fn serve_line<H: Waiting>(
        &mut self,
        hall: &mut H,
        line: &Line<'_>,
        request: &Request,
        options: &Options<'_>,
    ) -> Result<Answer, AllocError>
        requires attached { self.old.context.standing.attached ≡ true }
        requires next { IsNextLine self.old.context line.now }
        requires asks { IsAllocation line.now options.now request.now }
        requires ready { IsReadyIn self.old.party.me self.old (H.state hall.old) }
        ensures does { IfOk result (λ given. DoesLineHere self.old.party.me self.old self.new (H.state hall.old)
            (H.state hall.new) line.now given) }
        ensures halts { OnErr result (HaltsLineHere self.old.party.me self.old self.new (H.state hall.old)
            (H.state hall.new) line.now) }
        ensures lies { IfOk result (λ given. IsMapped self.new.party given) }
        ensures clock { RisesWithin H.pending (λ hall. IsBusy (H.state hall)) (longest_allocation self.old.party.deadline)
            (H.state hall.old).clock (H.state hall.new).clock }
        ensures ready { IsReadyAgain self.old.party.me self.old self.new (H.state hall.new) }
        ensures goes_on { H.goes_on hall.old hall.new }
    {
        self.reserve_element()?;
        let places = self.heaps_to_try(hall, options)?;
        let tag = Tag {
            who: line.participant,
            zone: false,
            number: line.line,
        };
        let (answer, heap) = self.serve_request(hall, places.as_slice(), request, tag)?;
        self.note_answer(line.line, answer, heap)?;
        Ok(answer)
    }

    // An allocation line.
    pub(crate) fn do_alloc<H: Waiting>(
        &mut self,
        hall: &mut H,
        line: &Line<'_>,
        size: u64,
        options: &Options<'_>,
    ) -> Result<Answer, AllocError>
        requires attached { self.old.context.standing.attached ≡ true }
        requires own { line.now.participant ≡ self.old.party.me }
        requires next { IsNextLine self.old.context line.now }
        requires act { (label : Part) × (line.now.act ≡ act.Alloc label size options.now) }
        requires ready { IsReadyIn self.old.party.me self.old (H.state hall.old) }
        ensures does { IfOk result (λ given. DoesLineHere self.old.party.me self.old self.new (H.state hall.old)
            (H.state hall.new) line.now given) }
        ensures halts { OnErr result (HaltsLineHere self.old.party.me self.old self.new (H.state hall.old)
            (H.state hall.new) line.now) }
        ensures lies { IfOk result (λ given. IsMapped self.new.party given) }
        ensures clock { RisesWithin H.pending (λ hall. IsBusy (H.state hall)) (longest_allocation self.old.party.deadline)
            (H.state hall.old).clock (H.state hall.new).clock }
        ensures ready { IsReadyAgain self.old.party.me self.old self.new (H.state hall.new) }
        ensures goes_on { H.goes_on hall.old hall.new }
    {
        match Request::new(size, options.align, options.bound, options.flags) {
            Ok(request) => self.serve_line(hall, line, &request, options),
            Err(kind) => Ok(Answer::BadRequest { kind }),
        }
    }
}
