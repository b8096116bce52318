//! The line that frees a memzone.
ghost use Rattle.std.specs.Prelude.{◌≡◌, [], ◌∷◌, IfOk, OnErr, Some, true};
ghost use Rattle.hp_hall.specs.HallState.{IsBusy};
ghost use Rattle.hp_script.specs.declared.line.Act.TheVariants as act;
ghost use Rattle.hp_serve.specs.Clocks.{RisesWithin, longest_wait};
ghost use Rattle.hp_zone.specs.Zones.{IsFound};
ghost use Rattle.hp_proc.specs.Courses.{searched_heap_at};
ghost use Rattle.hp_proc.specs.Freeing.{left_of};
ghost use Rattle.hp_proc.specs.Handing.{shared_of};
ghost use Rattle.hp_proc.specs.LineInHall.{DoesLineHere, HaltsLineHere, HasRoom, HoldsIn, IsReadyAgain, IsReadyIn};
ghost use Rattle.hp_proc.specs.NamesInHand.{DoesNamed, DoesNamedHeld, DoesNamedOnce, HaltsNamed, HaltsNamedOnce, HasCalledNamed, HasNamesBeside, IsReadyNamed, KeepsNamed};
ghost use Rattle.hp_proc.specs.SharedNames.{zone_named};
ghost use Rattle.hp_proc.specs.ZoneLines.{freeing_zone};

use super::Participant;
use super::names::are_sound;
use crate::element_act::Left;
use crate::searched_heap::SearchedHeap;
use hp_base::Mapper;
use hp_hall::{Hall, Waiting};
use hp_heap::Heap;
use hp_script::{Answer, Line, Token};
use hp_serve::Decide;
use hp_zone::{Names, Zone};
use std::alloc::AllocError;

// The calls of one heap that such a line makes at most: a free, a cut.
const CALLS: usize = 2;

impl<'p, M: Mapper, F: Decide + Copy + Drop> Participant<'p, M, F> {
    // With the names and its heap in hand it takes a memzone out, and frees its element, whose whole pages it then gives up.
    fn free_named<H: Hall>(
        &mut self,
        hall: &mut H,
        names: &mut Names,
        heap: &mut Heap,
        place: &SearchedHeap,
        zone: &Zone,
    ) -> Left
        requires holds { HoldsIn self.old.party.me self.old heap.old (H.state hall.old) }
        requires names { HasNamesBeside self.old.party.me self.old names.old heap.old (H.state hall.old) }
        requires found { IsFound names.old.zones.zones zone.now.name zone.now }
        requires its { place.now ≡ searched_heap_at self.old.context.pools heap.old.plain.index }
        requires there { zone.now.heap ≡ heap.old.plain.index }
        requires room { HasRoom 2 heap.old self.old }
        ensures does { DoesNamedHeld self.old.party.me self.old self.new names.old names.new heap.old heap.new
            (H.state hall.old) (H.state hall.new) (freeing_zone (searched_heap_at self.old.context.pools) (Some zone.now))
            (left_of zone.now.heap result) }
        ensures keeps { KeepsNamed self.old.party.me self.old self.new names.new heap.old heap.new (H.state hall.old) (H.state hall.new) }
        ensures goes_on { H.goes_on hall.old hall.new }
    {
        let _gone = names.zones.remove(zone.name.as_bytes());
        are_sound(names);
        self.free_zone_in(heap, zone.addr);
        self.cut_held(hall, heap, place, zone.addr)
    }

    // With the names in hand it holds the heap of a memzone while it frees that.
    fn free_there<H: Waiting>(
        &mut self,
        hall: &mut H,
        names: &mut Names,
        zone: &Zone,
    ) -> Result<Left, AllocError>
        requires ready { IsReadyNamed self.old.party.me self.old names.old (H.state hall.old) }
        requires found { IsFound names.old.zones.zones zone.now.name zone.now }
        ensures does { IfOk result (λ left. DoesNamed (zone.now.heap ∷ []) self.old.party.me self.old self.new names.old names.new
            (H.state hall.old) (H.state hall.new) (freeing_zone (searched_heap_at self.old.context.pools) (Some zone.now))
            (left_of zone.now.heap left)) }
        ensures halts { OnErr result (HaltsNamed (zone.now.heap ∷ []) self.old.party.me self.old self.new names.old names.new
            (H.state hall.old) (H.state hall.new) (freeing_zone (searched_heap_at self.old.context.pools) (Some zone.now))) }
        ensures clock { RisesWithin H.pending (λ hall. IsBusy (H.state hall)) 0 (H.state hall.old).clock (H.state hall.new).clock }
        ensures ready { HasCalledNamed self.old.party.me self.old self.new names.new (H.state hall.new) }
        ensures goes_on { H.goes_on hall.old hall.new }
    {
        let place = self.context.place_at(zone.heap);
        let (mut heap, pen) = self.hold(hall, zone.heap, CALLS)?;
        let left = self.free_named(hall, names, &mut heap, &place, zone);
        self.put(hall, heap, pen);
        Ok(left)
    }

    // Frees the memzone of a name with the names in hand, where there is one. Beside what is left of the line stands the memzone's heap.
    fn unzone_named<H: Waiting>(
        &mut self,
        hall: &mut H,
        names: &mut Names,
        name: &Token<'_>,
    ) -> Result<(Left, u32), AllocError>
        requires ready { IsReadyNamed self.old.party.me self.old names.old (H.state hall.old) }
        ensures does { IfOk result (λ left. DoesNamedOnce self.old.party.me self.old self.new names.old names.new
            (H.state hall.old) (H.state hall.new) (freeing_zone (searched_heap_at self.old.context.pools)
            (zone_named name.now.text (shared_of names.old))) (left_of left.1 left.0)) }
        ensures halts { OnErr result (HaltsNamedOnce self.old.party.me self.old self.new names.old names.new
            (H.state hall.old) (H.state hall.new) (freeing_zone (searched_heap_at self.old.context.pools)
            (zone_named name.now.text (shared_of names.old)))) }
        ensures clock { RisesWithin H.pending (λ hall. IsBusy (H.state hall)) 0 (H.state hall.old).clock (H.state hall.new).clock }
        ensures ready { HasCalledNamed self.old.party.me self.old self.new names.new (H.state hall.new) }
        ensures goes_on { H.goes_on hall.old hall.new }
    {
        let Some(found) = names.zones.lookup(name.as_bytes()) else {
            let answer = Answer::NotFound;
            return Ok((Left::Answered { answer }, 0));
        };
        let zone = *found;
        let left = self.free_there(hall, names, &zone)?;
        Ok((left, zone.heap))
    }

    // A line that frees a memzone. It gives the names back before it tells the coordinator of a run that it gave up, and waits for that.
    pub(crate) fn do_unzone<H: Waiting>(
        &mut self,
        hall: &mut H,
        line: &Line<'_>,
        name: &Token<'_>,
    ) -> Result<Answer, AllocError>
        requires attached { self.old.context.standing.attached ≡ true }
        requires own { line.now.participant ≡ self.old.party.me }
        requires act { line.now.act ≡ act.Unzone name.now }
        requires ready { IsReadyIn self.old.party.me self.old (H.state hall.old) }
        ensures does { IfOk result (λ given. DoesLineHere self.old.party.me self.old self.new (H.state hall.old)
            (H.state hall.new) line.now given) }
        ensures halts { OnErr result (HaltsLineHere self.old.party.me self.old self.new (H.state hall.old)
            (H.state hall.new) line.now) }
        ensures clock { RisesWithin H.pending (λ hall. IsBusy (H.state hall)) (longest_wait self.old.party.deadline)
            (H.state hall.old).clock (H.state hall.new).clock }
        ensures ready { IsReadyAgain self.old.party.me self.old self.new (H.state hall.new) }
        ensures goes_on { H.goes_on hall.old hall.new }
    {
        let mut names = self.take_names(hall)?;
        let freed = self.unzone_named(hall, &mut names, name);
        self.give_names(hall, names);
        let (left, heap) = freed?;
        self.tell(hall, heap, left)
    }
}
