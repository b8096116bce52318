//! How a participant takes a heap into its hand, and gives it back.
ghost use Rattle.std.specs.Prelude.{◌≡◌, ◌<◌, [], ◌∷◌, IfOk, MatchResult, None, OnErr};
ghost use Rattle.hp_base.specs.declared.limits.TheConstants.{MAX_HEAPS};
ghost use Rattle.hp_hall.specs.declared.kept.Kept.{Kept};
ghost use Rattle.hp_serve.specs.Clocks.{RisesWithin};
ghost use Rattle.hp_hall.specs.declared.slot.TheConstants.{NAMES_SLOT};
ghost use Rattle.hp_heap.specs.PlainHeap.{PlainHeap};
ghost use Rattle.hp_proc.specs.Doing.{Doing};
ghost use Rattle.hp_serve.specs.Party.{IsSameParty};
ghost use Rattle.hp_proc.specs.Progress.{AreSettled, Does, IsInHand, IsTakenWith, MayDo, in_hand};
ghost use Rattle.hp_hall.specs.HallState.{IsBusy, OthersStay, SlotsStayBut};
ghost use Rattle.hp_proc.specs.HeldMarks.{HasMarksOf, IsTiedWith};
ghost use Rattle.hp_proc.specs.LineInHall.{AreFreeBesideNames, HaltsHere, HasCalledBeside, HasRoom, HoldsHeap, IsFreeAt, IsReadyBut, MayGiveBeside, SeesHeap, TableStays, did_in, moment, moment_with};
ghost use Rattle.hp_proc.specs.NamesInHand.{AgreesStill, KeepsAgreed, TakesAgreed};
ghost use Rattle.hp_serve.specs.InHall.{IsTiedIn};

use super::Participant;
use hp_base::Mapper;
use hp_hall::{Hall, Kept, Slot, Waiting};
use hp_heap::Heap;
use hp_serve::Decide;
use hp_stats::StatPen;
use std::alloc::AllocError;

impl<'p, M: Mapper, F: Decide + Copy + Drop> Participant<'p, M, F> {
    // Tries to take the heap of an index with its pen, and takes turns while another one holds it.
    fn take_heap<H: Waiting>(
        &mut self,
        hall: &mut H,
        index: u32,
    ) -> Result<(Heap, StatPen), AllocError>
        requires few { index < MAX_HEAPS }
        requires ready { IsReadyBut NAMES_SLOT self.old.party.me self.old (H.state hall.old) }
        ensures did { IfOk result (λ held. (doing : Doing) → Does (index ∷ []) (H.state hall.old).count
            (did_in self.old.party.me (H.state hall.old) (H.state hall.new)) doing doing
            (moment self.old.party.me self.old (H.state hall.old)) (moment_with held.0 self.old.party.me self.new (H.state hall.new))) }

        // One for external memory may be handed over with its state, of which the line takes notice.
        ensures sees { IfOk result (λ held. held.0.plain.serves ≡ None → (goes : PlainHeap → Doing)
            → SeesHeap index self.old.party.me self.old self.new held.0 (H.state hall.old) (H.state hall.new) goes) }
        ensures halts { OnErr result ((doing : Doing) → HaltsHere (index ∷ []) self.old.party.me self.old self.new (H.state hall.old)
            (H.state hall.new) doing) }
        ensures hand { IfOk result (λ held. HoldsHeap index self.old.party.me self.new held.0 held.1 (H.state hall.new)) }
        ensures same { IsSameParty self.old.party self.new.party }
        ensures context { self.new.context ≡ self.old.context }
        ensures slots { AreFreeBesideNames index self.old.party.me (H.state hall.old) (H.state hall.new) }
        ensures err { OnErr result (HasCalledBeside self.old.party.me self.old self.new (H.state hall.old) (H.state hall.new)) }
        ensures agreed { MatchResult result (λ held. TakesAgreed self.old.party.me held.0 (H.state hall.old) (H.state hall.new))
            (λ stopped. AgreesStill self.old.party.me (H.state hall.old) (H.state hall.new)) }
        ensures clock { RisesWithin H.pending (λ hall. IsBusy (H.state hall)) 0 (H.state hall.old).clock (H.state hall.new).clock }
        ensures goes_on { H.goes_on hall.old hall.new }
    {
        'taking: loop {
            match hall.try_take(self.number(), Slot::Heap(index)) {
                Ok(kept) => return Ok(kept.into_heap()),
                Err(_) => {
                    self.turn(hall, u64::MAX)?;
                }
            }
        }
    }

    // Publishes the statistics of a heap, and gives it back with its pen, once its asks are settled.
    pub(crate) fn put<H: Hall>(&self, hall: &mut H, heap: Heap, pen: StatPen)
        requires serves { (H.state hall.old).serves self.now.party.me }
        requires in_hand { IsInHand (H.state hall.old).taken (moment self.now.party.me self.now (H.state hall.old)) heap }
        requires settled { AreSettled (moment self.now.party.me self.now (H.state hall.old)) }
        requires taken_with { IsTakenWith (H.state hall.old).taken heap.plain.index pen }
        requires beside { MayGiveBeside self.now.party.me (H.state hall.old) }
        ensures does { (doing : Doing) → Does [] (H.state hall.old).count
            (did_in self.now.party.me (H.state hall.old) (H.state hall.new)) doing doing
            (moment_with heap self.now.party.me self.now (H.state hall.old)) (moment self.now.party.me self.now (H.state hall.new)) }
        ensures ready { MayDo (moment self.now.party.me self.now (H.state hall.new)) }
        ensures marks { HasMarksOf self.now.party.me heap (H.state hall.old) (H.state hall.new) }
        ensures tied { IsTiedWith self.now.party.me self.now.party heap (H.state hall.old) → IsTiedIn self.now.party.me self.now.party (H.state hall.new) }
        ensures table { TableStays self.now.party.me (H.state hall.old) (H.state hall.new) }
        ensures agreed { KeepsAgreed self.now.party.me heap (H.state hall.old) (H.state hall.new) }
        ensures free { IsFreeAt heap.plain.index (H.state hall.new) }
        ensures slots { SlotsStayBut heap.plain.index (H.state hall.old) (H.state hall.new) }
        ensures others { OthersStay self.now.party.me (H.state hall.old) (H.state hall.new) }
        ensures goes_on { H.goes_on hall.old hall.new }
    {
        let index = heap.index();
        let mut kept = Kept::Heap { heap, pen };
        hall.publish(self.number(), index, &mut kept);
        hall.give(self.number(), Slot::Heap(index), kept);
    }

    // Takes the heap of an index into its hand with its pen, and with room for so many calls. Where there is no memory for them, it is given back.
    pub(crate) fn hold<H: Waiting>(
        &mut self,
        hall: &mut H,
        index: u32,
        calls: usize,
    ) -> Result<(Heap, StatPen), AllocError>
        requires few { index < MAX_HEAPS }
        requires ready { IsReadyBut NAMES_SLOT self.old.party.me self.old (H.state hall.old) }
        requires beside { MayGiveBeside self.old.party.me (H.state hall.old) }
        ensures did { IfOk result (λ held. (doing : Doing) → Does (index ∷ []) (H.state hall.old).count
            (did_in self.old.party.me (H.state hall.old) (H.state hall.new)) doing doing
            (moment self.old.party.me self.old (H.state hall.old)) (moment_with held.0 self.old.party.me self.new (H.state hall.new))) }

        // One for external memory may be handed over with its state, of which the line takes notice.
        ensures sees { IfOk result (λ held. held.0.plain.serves ≡ None → (goes : PlainHeap → Doing)
            → SeesHeap index self.old.party.me self.old self.new held.0 (H.state hall.old) (H.state hall.new) goes) }
        ensures halts { OnErr result ((doing : Doing) → HaltsHere (index ∷ []) self.old.party.me self.old self.new (H.state hall.old)
            (H.state hall.new) doing) }
        ensures hand { IfOk result (λ held. HoldsHeap index self.old.party.me self.new held.0 held.1 (H.state hall.new)) }
        ensures room { IfOk result (λ held. HasRoom calls held.0 self.new) }
        ensures same { IsSameParty self.old.party self.new.party }
        ensures context { self.new.context ≡ self.old.context }
        ensures slots { AreFreeBesideNames index self.old.party.me (H.state hall.old) (H.state hall.new) }
        ensures err { OnErr result (HasCalledBeside self.old.party.me self.old self.new (H.state hall.old) (H.state hall.new)) }
        ensures agreed { MatchResult result (λ held. TakesAgreed self.old.party.me held.0 (H.state hall.old) (H.state hall.new))
            (λ stopped. AgreesStill self.old.party.me (H.state hall.old) (H.state hall.new)) }
        ensures clock { RisesWithin H.pending (λ hall. IsBusy (H.state hall)) 0 (H.state hall.old).clock (H.state hall.new).clock }
        ensures goes_on { H.goes_on hall.old hall.new }
    {
        if self.context.calls.checked_add(calls as u64).is_none() {
            return Err(AllocError);
        }
        let (mut heap, pen) = self.take_heap(hall, index)?;
        match heap.reserve(calls) {
            Ok(()) => Ok((heap, pen)),
            Err(AllocError) => {
                self.put(hall, heap, pen);
                Err(AllocError)
            }
        }
    }
}
