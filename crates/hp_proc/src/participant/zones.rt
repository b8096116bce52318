//! The lines of memzones that reserve one and look one up. The first holds the names while it holds a heap.
ghost use Rattle.std.specs.Prelude.{◌≡◌, IfOk, OnErr, Some, find, map, true};
ghost use Rattle.std.specs.Option.{option_map};
ghost use Rattle.hp_hall.specs.HallState.{IsBusy};
ghost use Rattle.hp_script.specs.declared.line.Act.TheVariants as act;
ghost use Rattle.hp_serve.specs.Clocks.{RisesWithin, longest_allocation};
ghost use Rattle.hp_zone.specs.Directory.{IsDirectory};
ghost use Rattle.hp_zone.specs.Zones.{IsZones, has_name};
ghost use Rattle.hp_proc.specs.Contexts.{AreFactsOf};
ghost use Rattle.hp_proc.specs.Courses.{maker_for};
ghost use Rattle.hp_proc.specs.Doing.{Doing};
ghost use Rattle.hp_proc.specs.Handing.{shared_of};
ghost use Rattle.hp_proc.specs.Heaps.{heaps_for, sockets_of};
ghost use Rattle.hp_proc.specs.LineInHall.{DoesLineHere, HaltsLineHere, IsKnownMapped, IsMapped, IsReadyAgain, IsReadyIn};
ghost use Rattle.hp_proc.specs.Lines.{Facts};
ghost use Rattle.hp_proc.specs.NamesInHand.{DoesNamedOnce, HaltsNamedOnce, HasCalledNamed, IsReadyNamed};
ghost use Rattle.hp_proc.specs.PlaceLists.{place_list, place_named};
ghost use Rattle.hp_proc.specs.SharedNames.{heaps_in, socket_at};
ghost use Rattle.hp_proc.specs.ZoneLines.{found_zone, zone_answer, zone_tag};
ghost use Rattle.hp_proc.specs.ZonesInHand.{IsReservation, MayPut, PutsZone, reserving_by};

use super::Participant;
use super::names::are_sound;
use crate::named_heaps::place_of;
use crate::place_lists::{Places, one_place};
use hp_base::{Mapper, Name, Request, Tag};
use hp_hall::Waiting;
use hp_script::{Answer, Line, Options, Token};
use hp_serve::Decide;
use hp_zone::{Names, Zone, ZoneFault};
use std::alloc::AllocError;

// The answer of a line that would reserve a memzone and does not.
fn zone_answer(fault: ZoneFault) -> Answer
    ensures { result ≡ zone_answer fault }
{
    match fault {
        ZoneFault::NameLong => Answer::NameTooLong,
        ZoneFault::Exists => Answer::Exists,
        ZoneFault::NoSpace { .. } => Answer::NoSpace,
        ZoneFault::BadAlign => Answer::BadAlign,
        ZoneFault::BadBound => Answer::BadBound,
    }
}

// The socket number of the heap of an index, where it has a name.
fn socket_of(names: &Names, heap: u32) -> u32
    ensures { result ≡ socket_at names.now.heaps.plain heap }
{
    match names.heaps.at(heap) {
        Some((_name, socket)) => socket,
        None => 0,
    }
}

// Memory was found for a memzone in the heap of that index, and the memzones have it from then on; or none was found.
fn put_zone(names: &mut Names, name: Name, len: u64, heap: u32, answer: Answer)
    requires may { MayPut names.old name len heap answer }
    ensures { PutsZone names.old names.new name len heap answer }
{
    if let Answer::Address { addr } = answer {
        let socket = socket_of(names, heap);
        names.zones.insert(Zone {
            name,
            addr,
            len,
            socket,
            heap,
        });
    }
}

impl<'p, M: Mapper, F: Decide + Copy + Drop> Participant<'p, M, F> {
    // The heaps that a reservation tries, in their order, with the names in hand.
    fn zone_places(&self, names: &Names, options: &Options<'_>) -> Result<Places, AllocError>
        requires sound { IsDirectory names.now.heaps }
        requires sockets { names.now.heaps.sockets ≡ sockets_of self.now.context.pools }
        ensures { IfOk result (λ places. place_list places
            ≡ map place_named (heaps_for self.now.party.socket (heaps_in names.now.heaps.plain)
            (option_map (λ name. name.text) options.now.heap) options.now.socket)) }
    {
        match &options.heap {
            Some(name) => Ok(one_place(place_of(names, name.as_bytes()))),
            None => {
                let own = self.judged.server.socket();
                let places = self.context.heaps_for(own, options.socket)?;
                Ok(places)
            }
        }
    }

    // The tag of the element that a line reserves: its number is that of the first line which reserves the name.
    fn zone_tag(&self, line: &Line<'_>, name: &Token<'_>) -> Tag
        ensures { result ≡ zone_tag line.now (maker_for self.now.context.lines (Some name.now)) }
    {
        let number = match self.context.maker_of(name) {
            Some(first) => first.line,
            None => line.line,
        };
        Tag {
            who: line.participant,
            zone: true,
            number,
        }
    }

    // Serves the request of a reservation with the names in hand, and puts the memzone there where memory was found.
    fn serve_zone<H: Waiting>(
        &mut self,
        hall: &mut H,
        names: &mut Names,
        line: &Line<'_>,
        name: &Token<'_>,
        kept: Name,
        request: &Request,
        options: &Options<'_>,
    ) -> Result<Answer, AllocError>
        requires kept { kept ≡ name.now.text }
        requires ready { IsReadyNamed self.old.party.me self.old names.old (H.state hall.old) }
        requires asks { IsReservation names.old.zones.zones line.now name.now options.now request.now }
        ensures does { IfOk result (λ given. (facts : Facts) → AreFactsOf self.old.party.socket self.old.context line.now facts
            → DoesNamedOnce self.old.party.me self.old self.new names.old names.new (H.state hall.old) (H.state hall.new)
            (reserving_by line.now.act line.now facts (shared_of names.old)) (Doing.Ended given)) }
        ensures halts { OnErr result ((facts : Facts) → AreFactsOf self.old.party.socket self.old.context line.now facts
            → HaltsNamedOnce self.old.party.me self.old self.new names.old names.new (H.state hall.old) (H.state hall.new)
            (reserving_by line.now.act line.now facts (shared_of names.old))) }
        ensures lies { IfOk result (IsKnownMapped self.old.party.me (H.state hall.new)) }
        ensures clock { RisesWithin H.pending (λ hall. IsBusy (H.state hall)) (longest_allocation self.old.party.deadline)
            (H.state hall.old).clock (H.state hall.new).clock }
        ensures ready { HasCalledNamed self.old.party.me self.old self.new names.new (H.state hall.new) }
        ensures goes_on { H.goes_on hall.old hall.new }
    {
        names.zones.reserve()?;
        let places = self.zone_places(names, options)?;
        let tag = self.zone_tag(line, name);
        let (answer, heap) = self.serve_request(hall, places.as_slice(), request, tag)?;
        put_zone(names, kept, request.size, heap, answer);
        are_sound(names);
        Ok(answer)
    }

    // Judges a reservation with the names in hand, and serves it.
    fn reserve_named<H: Waiting>(
        &mut self,
        hall: &mut H,
        names: &mut Names,
        line: &Line<'_>,
        name: &Token<'_>,
        len: u64,
        options: &Options<'_>,
    ) -> Result<Answer, AllocError>
        requires ready { IsReadyNamed self.old.party.me self.old names.old (H.state hall.old) }
        requires act { line.now.act ≡ act.Zone name.now len options.now }
        ensures does { IfOk result (λ given. (facts : Facts) → AreFactsOf self.old.party.socket self.old.context line.now facts
            → DoesNamedOnce self.old.party.me self.old self.new names.old names.new (H.state hall.old) (H.state hall.new)
            (reserving_by line.now.act line.now facts (shared_of names.old)) (Doing.Ended given)) }
        ensures halts { OnErr result ((facts : Facts) → AreFactsOf self.old.party.socket self.old.context line.now facts
            → HaltsNamedOnce self.old.party.me self.old self.new names.old names.new (H.state hall.old) (H.state hall.new)
            (reserving_by line.now.act line.now facts (shared_of names.old))) }
        ensures lies { IfOk result (IsKnownMapped self.old.party.me (H.state hall.new)) }
        ensures clock { RisesWithin H.pending (λ hall. IsBusy (H.state hall)) (longest_allocation self.old.party.deadline)
            (H.state hall.old).clock (H.state hall.new).clock }
        ensures ready { HasCalledNamed self.old.party.me self.old self.new names.new (H.state hall.new) }
        ensures goes_on { H.goes_on hall.old hall.new }
    {
        let judged = names
            .zones
            .check(name.as_bytes(), len, options.align, options.bound);
        let kept = match judged {
            Ok(kept) => kept,
            Err(fault) => return Ok(zone_answer(fault)),
        };
        match Request::new(len, options.align, options.bound, options.flags) {
            Ok(request) => self.serve_zone(hall, names, line, name, kept, &request, options),
            Err(kind) => Ok(Answer::BadRequest { kind }),
        }
    }

    // A line that reserves a memzone: it takes the names, and gives them back as it leaves them.
    pub(crate) fn do_zone<H: Waiting>(
        &mut self,
        hall: &mut H,
        line: &Line<'_>,
        name: &Token<'_>,
        len: u64,
        options: &Options<'_>,
    ) -> Result<Answer, AllocError>
        requires attached { self.old.context.standing.attached ≡ true }
        requires own { line.now.participant ≡ self.old.party.me }
        requires act { line.now.act ≡ act.Zone name.now len options.now }
        requires ready { IsReadyIn self.old.party.me self.old (H.state hall.old) }
        ensures does { IfOk result (λ given. DoesLineHere self.old.party.me self.old self.new (H.state hall.old)
            (H.state hall.new) line.now given) }
        ensures halts { OnErr result (HaltsLineHere self.old.party.me self.old self.new (H.state hall.old)
            (H.state hall.new) line.now) }
        ensures lies { IfOk result (IsMapped self.new.party) }
        ensures clock { RisesWithin H.pending (λ hall. IsBusy (H.state hall)) (longest_allocation self.old.party.deadline)
            (H.state hall.old).clock (H.state hall.new).clock }
        ensures ready { IsReadyAgain self.old.party.me self.old self.new (H.state hall.new) }
        ensures goes_on { H.goes_on hall.old hall.new }
    {
        let mut names = self.take_names(hall)?;
        let given = self.reserve_named(hall, &mut names, line, name, len, options);
        self.give_names(hall, names);
        given
    }

    // A line that looks a memzone up: it takes the names, and gives them back as they were.
    pub(crate) fn do_lookup<H: Waiting>(
        &mut self,
        hall: &mut H,
        line: &Line<'_>,
        name: &Token<'_>,
    ) -> Result<Answer, AllocError>
        requires attached { self.old.context.standing.attached ≡ true }
        requires own { line.now.participant ≡ self.old.party.me }
        requires act { line.now.act ≡ act.Lookup name.now }
        requires ready { IsReadyIn self.old.party.me self.old (H.state hall.old) }
        ensures does { IfOk result (λ given. DoesLineHere self.old.party.me self.old self.new (H.state hall.old)
            (H.state hall.new) line.now given) }
        ensures halts { OnErr result (HaltsLineHere self.old.party.me self.old self.new (H.state hall.old)
            (H.state hall.new) line.now) }
        ensures clock { RisesWithin H.pending (λ hall. IsBusy (H.state hall)) 0 (H.state hall.old).clock (H.state hall.new).clock }
        ensures ready { IsReadyAgain self.old.party.me self.old self.new (H.state hall.new) }
        ensures goes_on { H.goes_on hall.old hall.new }
    {
        let names = self.take_names(hall)?;
        let answer = found_answer(&names, name.as_bytes());
        self.give_names(hall, names);
        Ok(answer)
    }
}

// The answer of a line that looks a memzone up.
fn found_answer(names: &Names, text: &[u8]) -> Answer
    requires sound { IsZones names.now.zones }
    ensures { Doing.Ended result ≡ found_zone (find (has_name text.now) names.now.zones.zones) }
{
    match names.zones.lookup(text) {
        Some(zone) => Answer::Found {
            addr: zone.addr,
            len: zone.len,
        },
        None => Answer::NotFound,
    }
}
