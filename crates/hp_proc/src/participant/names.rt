//! How a participant holds the names, and what it reads there.
ghost use Rattle.std.specs.Prelude.{[], IfOk, OnErr};
ghost use Rattle.hp_hall.specs.HallState.{IsBusy};
ghost use Rattle.hp_hall.specs.Values.{IsSoundKept};
ghost use Rattle.hp_hall.specs.declared.kept.Kept.{Kept};
ghost use Rattle.hp_proc.specs.Doing.{Doing};
ghost use Rattle.hp_proc.specs.LineInHall.{HaltsHere, HasCalled, HasReadAll, HasReadNames, HoldsNames, IsReadyIn};
ghost use Rattle.hp_proc.specs.Lines.{reading_names};
ghost use Rattle.hp_proc.specs.NamesInHand.{GivesNamesBack, MayGiveNames};
ghost use Rattle.hp_proc.specs.PlaceLists.{place_list};
ghost use Rattle.hp_proc.specs.SharedNames.{SharedNames};
ghost use Rattle.hp_serve.specs.Clocks.{RisesWithin};

use super::Participant;
use crate::named_heaps::{place_of, places_in};
use crate::place_lists::Places;
use crate::searched_heap::SearchedHeap;
use hp_base::Mapper;
use hp_hall::{Hall, Kept, Slot, Waiting};
use hp_script::Token;
use hp_serve::Decide;
use hp_zone::Names;
use std::alloc::AllocError;

// What holds of names at all times. It does nothing.
pub(crate) fn are_sound(names: &Names)
    ensures { IsSoundKept (Kept.Names names.now) }
{
    let _heaps = names.heaps.log();
    let _zones = names.zones.log();
}

impl<'p, M: Mapper, F: Decide + Copy + Drop> Participant<'p, M, F> {
    // Tries to take the names, and takes turns while another one holds them.
    pub(crate) fn take_names<H: Waiting>(&mut self, hall: &mut H) -> Result<Names, AllocError>
        requires ready { IsReadyIn self.old.party.me self.old (H.state hall.old) }
        ensures held { IfOk result (λ names. HoldsNames self.old.party.me self.old self.new names (H.state hall.old) (H.state hall.new)) }
        ensures halts { OnErr result ((doing : Doing) → HaltsHere [] self.old.party.me self.old self.new (H.state hall.old)
            (H.state hall.new) doing) }
        ensures err { OnErr result (HasCalled self.old.party.me self.old self.new (H.state hall.new)) }
        ensures clock { RisesWithin H.pending (λ hall. IsBusy (H.state hall)) 0 (H.state hall.old).clock (H.state hall.new).clock }
        ensures goes_on { H.goes_on hall.old hall.new }
    {
        'taking: loop {
            match hall.try_take(self.number(), Slot::NamesSlot) {
                Ok(kept) => return Ok(kept.into_names()),
                Err(_) => {
                    self.turn(hall, u64::MAX)?;
                }
            }
        }
    }

    // Gives the names back.
    pub(crate) fn give_names<H: Hall>(&self, hall: &mut H, names: Names)
        requires may { MayGiveNames self.now.party.me self.now names (H.state hall.old) }
        ensures gave { GivesNamesBack self.now.party.me self.now names (H.state hall.old) (H.state hall.new) }
        ensures goes_on { H.goes_on hall.old hall.new }
    {
        hall.give(self.number(), Slot::NamesSlot, Kept::Names { names });
    }

    // Reads the names under their slot, and gives that back. Returned is the heap that has the name there.
    pub(crate) fn read_place<H: Waiting>(
        &mut self,
        hall: &mut H,
        name: &Token<'_>,
    ) -> Result<Option<SearchedHeap>, AllocError>
        requires ready { IsReadyIn self.old.party.me self.old (H.state hall.old) }
        ensures read { IfOk result (λ found. HasReadNames self.old.party.me self.old self.new name.now.text found (H.state hall.old)
            (H.state hall.new)) }
        ensures halts { OnErr result ((doing : Doing) → HaltsHere [] self.old.party.me self.old self.new (H.state hall.old)
            (H.state hall.new) doing) }
        ensures ready { HasCalled self.old.party.me self.old self.new (H.state hall.new) }
        ensures clock { RisesWithin H.pending (λ hall. IsBusy (H.state hall)) 0 (H.state hall.old).clock (H.state hall.new).clock }
        ensures goes_on { H.goes_on hall.old hall.new }
    {
        let names = self.take_names(hall)?;
        let found = place_of(&names, name.as_bytes());
        self.give_names(hall, names);
        Ok(found)
    }

    // Reads the names under their slot, and gives that back. Returned are all heaps that have a name there.
    pub(crate) fn read_places<H: Waiting>(&mut self, hall: &mut H) -> Result<Places, AllocError>
        requires ready { IsReadyIn self.old.party.me self.old (H.state hall.old) }
        ensures read { IfOk result (λ found. HasReadAll self.old.party.me self.old self.new (place_list found) (H.state hall.old)
            (H.state hall.new)) }
        ensures halts { OnErr result ((goes : SharedNames → Doing) → HaltsHere [] self.old.party.me self.old self.new (H.state hall.old)
            (H.state hall.new) (reading_names goes)) }
        ensures ready { HasCalled self.old.party.me self.old self.new (H.state hall.new) }
        ensures clock { RisesWithin H.pending (λ hall. IsBusy (H.state hall)) 0 (H.state hall.old).clock (H.state hall.new).clock }
        ensures goes_on { H.goes_on hall.old hall.new }
    {
        let names = self.take_names(hall)?;
        let found = places_in(self.context.alloc, &names);
        self.give_names(hall, names);
        let places = found?;
        Ok(Places::Several(places))
    }
}
