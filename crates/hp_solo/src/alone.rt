//! Who serves in a hall of one thread.
ghost use Rattle.std.specs.Prelude.{◌≡◌, ◌+◌, ◌<◌, ◌≤◌, List, [], false, None, Ok, Some, true, IfOk, IsSome, is_none, length, replicate};
ghost use Rattle.std.specs.Result.{result_ok};
ghost use Rattle.hp_base.specs.declared.limits.TheConstants.{MAX_HEAPS};
ghost use Rattle.hp_serve.specs.Denials.{denials_by};
ghost use Rattle.hp_plain.specs.HallView.{HasDone, IsHome, slot_at};
ghost use Rattle.hp_hall.specs.Mail.{MailStep};
ghost use Rattle.hp_hall.specs.Measures.{boxes_measure, pending_at};
ghost use Rattle.hp_serve.specs.Coordinating.{IsServed};
ghost use Rattle.hp_serve.specs.Falling.{if_moved, served_of};
ghost use Rattle.hp_solo.specs.Ending.{LeavesListeners, LeavesThere};
ghost use Rattle.hp_solo.specs.Sequence.{IsVisited, IsVisitedAs};
ghost use Rattle.hp_solo.specs.Served.{HasServed, HasServedAs, KeepsServing, KeepsServingAs};
ghost use Rattle.hp_solo.specs.Solo.{
  FindsNothing,
  HasLookedLast,
  HasNothingToDo,
  IsAtRest,
  IsPartyServed,
  IsResting,
  IsServedAs,
  IsTiedIn,
  LooksLast,
  denials_in,
  due_at,
  limits_of,
  nobody,
  party_of,
  party_measure,
  server_measure,
  with_party,
};

use hp_base::{Judge, Mapper};
use hp_plain::PlainHall;
use hp_serve::{Decide, End, JudgedServer, Server};
use std::alloc::{AllocError, Global};
use std::marker::Model;

// A participant that serves while others do their lines. It is away while its own line is done. Once it has met a refusal of memory it has
// stopped: it does no further line, and goes on serving.
#[derive(Drop)]
pub(crate) struct Alone<'p, M: Mapper, F: Decide + Copy + Drop> {
    // In a box, so that it goes away and comes back in eight bytes.
    participant: Option<Box<JudgedServer<'p, M, F>>>,
    stopped: bool,
}

impl<'p, M: Mapper, F: Decide + Copy + Drop> Model for Alone<'p, M, F> {
    ghost use Rattle.hp_solo.specs.Solo.{AloneView, limits_of, party_of};

    ghost Value = { AloneView };

    ghost view = { λ a. record { party = party_of a.participant; validators = limits_of a.participant; stopped = a.stopped } };
}

impl<'p, M: Mapper, F: Decide + Copy + Drop> Alone<'p, M, F> {
    // A place whose participant is away.
    pub fn vacant() -> Alone<'p, M, F>
        ensures { result ≡ nobody }
    {
        Alone {
            participant: None,
            stopped: false,
        }
    }

    // Serves until nothing is left for it or memory is refused, and tells whether it did something. The first refusal counts as something.
    // One that has stopped serves too.
    pub fn serve(&mut self, hall: &mut PlainHall) -> bool
        requires there { IsHome (slot_at hall.old MAX_HEAPS) }
        requires tied { IsTiedIn hall.old self.old.party }
        ensures served { IsServedAs hall.old hall.new self.old.party self.new.party }
        ensures limits { self.new.validators ≡ self.old.validators }
        ensures keeps { KeepsServingAs (denials_in (Some self.old)) hall.old hall.new self.old.party }
        ensures serves { self.new.stopped ≡ false
            → HasServedAs (denials_in (Some self.old)) hall.old hall.new self.old.party self.new.party }
        ensures visited { self.new.stopped ≡ false
            → IsVisitedAs (denials_in (Some self.old)) hall.old hall.new self.old.party self.new.party }
        ensures measure { boxes_measure hall.new.boxes + server_measure (pending_at hall.new.clock) self.new + if_moved result
            ≤ boxes_measure hall.old.boxes + server_measure (pending_at hall.old.clock) self.old }
        ensures rests { self.new.stopped ≡ false → IsAtRest hall.new.clock self.new.party }
        ensures looks { self.new.stopped ≡ false → HasLookedLast hall.old hall.new self.old.party }
        ensures idle { result ≡ false → self.old.stopped ≡ false → self.new ≡ self.old }
        ensures found { result ≡ false → self.old.stopped ≡ false → HasNothingToDo hall.old hall.new self.old.party }
        ensures stopped { self.old.stopped ≡ true → self.new.stopped ≡ true }
    {
        match serve_some(hall, &mut self.participant) {
            Ok(moved) => moved,
            Err(AllocError) => {
                let first = !self.stopped;
                self.stopped = true;
                first
            }
        }
    }

    // Its participant goes away, for its line.
    pub fn away(&mut self) -> Option<Box<JudgedServer<'p, M, F>>>
        ensures party { party_of result ≡ self.old.party }
        ensures limits { limits_of result ≡ self.old.validators }
        ensures away { self.new ≡ with_party None [] self.old }
    {
        self.participant.take()
    }

    // A participant comes back from its line.
    pub fn back(&mut self, participant: Box<JudgedServer<'p, M, F>>)
        ensures { self.new ≡ with_party (Some participant.entry.value.server) participant.entry.value.limits self.old }
    {
        self.participant = Some(participant);
    }

    // When the deadline of its participant's round passes.
    pub fn due(&self) -> Option<u64>
        ensures { result ≡ due_at self.now.party }
    {
        match &self.participant {
            None => None,
            Some(participant) => participant.server.due(),
        }
    }

    // What its participant leaves, which is there.
    pub fn end(self, alloc: Global) -> Result<End, AllocError>
        requires { IsSome self.party }
        ensures table { IfOk result (λ end. LeavesThere self.entry.party end.table) }
        ensures watchers { IfOk result (λ end. LeavesListeners self.entry.party end.watchers.listeners) }
    {
        match self.participant {
            None => unreachable!(),
            Some(participant) => Box::into_inner(participant).server.end(alloc),
        }
    }

    // Whether its participant is away.
    pub fn is_away(&self) -> bool
        ensures { result ≡ is_none self.now.party }
    {
        self.participant.is_none()
    }

    // Whether it has stopped.
    pub fn is_stopped(&self) -> bool
        ensures { result ≡ self.now.stopped }
    {
        self.stopped
    }
}

// A participant that is there serves until nothing is left for it, by its own validators.
fn serve_some<M: Mapper, F: Decide + Copy + Drop>(
    hall: &mut PlainHall,
    participant: &mut Option<Box<JudgedServer<'_, M, F>>>,
) -> Result<bool, AllocError>
    requires there { IsHome (slot_at hall.old MAX_HEAPS) }
    requires tied { IsTiedIn hall.old (party_of participant.old) }
    ensures served { IsServedAs hall.old hall.new (party_of participant.old) (party_of participant.new) }
    ensures limits { limits_of participant.new ≡ limits_of participant.old }
    ensures keeps { KeepsServingAs (denials_by (limits_of participant.old)) hall.old hall.new (party_of participant.old) }
    ensures serves { IfOk result (λ moved. HasServedAs (denials_by (limits_of participant.old)) hall.old hall.new (party_of participant.old)
        (party_of participant.new)) }
    ensures visited { IfOk result (λ moved. IsVisitedAs (denials_by (limits_of participant.old)) hall.old hall.new (party_of participant.old)
        (party_of participant.new)) }
    ensures measure { boxes_measure hall.new.boxes + party_measure (pending_at hall.new.clock) (party_of participant.new) + served_of result
        ≤ boxes_measure hall.old.boxes + party_measure (pending_at hall.old.clock) (party_of participant.old) }
    ensures rests { IfOk result (λ moved. IsAtRest hall.new.clock (party_of participant.new)) }
    ensures looks { IfOk result (λ moved. HasLookedLast hall.old hall.new (party_of participant.old)) }
    ensures idle { result ≡ Ok false → party_of participant.new ≡ party_of participant.old }
    ensures found { result ≡ Ok false → HasNothingToDo hall.old hall.new (party_of participant.old) }
{
    match participant {
        None => Ok(false),
        Some(participant) => {
            let judged = participant.as_mut();
            serve_out(hall, &mut judged.server, &judged.limits)
        }
    }
}

// A participant serves until nothing is left for it, and tells whether it did something.
fn serve_out<M: Mapper, J: Judge>(
    hall: &mut PlainHall,
    participant: &mut Server<'_, M>,
    judge: &J,
) -> Result<bool, AllocError>
    requires may_ask { J.may_ask judge.now }
    requires there { IsHome (slot_at hall.old MAX_HEAPS) }
    requires tied { IsTiedIn hall.old (Some participant.old) }
    ensures served { IsPartyServed hall.old hall.new participant.old participant.new }
    ensures keeps { KeepsServing (J.denies judge.now) (length hall.old.owns) participant.old.me hall.old hall.new participant.old }
    ensures serves { IfOk result (λ moved. HasServed (J.denies judge.now) (length hall.old.owns) participant.old.me hall.old hall.new
        participant.old participant.new) }
    ensures visited { IfOk result (λ moved. IsVisited (J.denies judge.now) hall.old hall.new participant.old participant.new) }
    ensures measure { boxes_measure hall.new.boxes + party_measure (pending_at hall.new.clock) (Some participant.new) + served_of result
        ≤ boxes_measure hall.old.boxes + party_measure (pending_at hall.old.clock) (Some participant.old) }
    ensures rests { IfOk result (λ moved. IsResting hall.new.clock participant.new) }
    ensures looks { IfOk result (λ moved. LooksLast hall.old hall.new participant.old.me) }
    ensures idle { result ≡ Ok false → participant.new ≡ participant.old }
    ensures found { result ≡ Ok false → FindsNothing hall.old hall.new participant.old.me }
{
    let mut moved = false;
    'serving: loop {
        let more = serve_once(hall, participant, judge)?;
        if !more {
            return Ok(moved);
        }
        moved = true;
    }
}

// A participant serves once.
fn serve_once<M: Mapper, J: Judge>(
    hall: &mut PlainHall,
    participant: &mut Server<'_, M>,
    judge: &J,
) -> Result<bool, AllocError>
    requires may_ask { J.may_ask judge.now }
    requires there { IsHome (slot_at hall.old MAX_HEAPS) }
    requires tied { IsTiedIn hall.old (Some participant.old) }
    ensures served { IsPartyServed hall.old hall.new participant.old participant.new }
    ensures measure { boxes_measure hall.new.boxes + party_measure (pending_at hall.new.clock) (Some participant.new) + served_of result
        ≤ boxes_measure hall.old.boxes + party_measure (pending_at hall.old.clock) (Some participant.old) }
    ensures rests { result ≡ Ok false → IsResting hall.new.clock participant.new }
    ensures serves { (steps : List MailStep) × HasDone hall.old hall.new participant.old.me steps
        × IsServed (J.denies judge.now) (length hall.old.owns) participant.old participant.new steps (result_ok result) }
    ensures idle { result ≡ Ok false → participant.new ≡ participant.old }
    ensures found { result ≡ Ok false → FindsNothing hall.old hall.new participant.old.me }
{
    participant.serve(hall, judge)
}

// Places for so many participants, all of which are away.
pub(crate) fn places<'p, M: Mapper, F: Decide + Copy + Drop>(
    alloc: Global,
    count: u8,
) -> Result<Vec<Alone<'p, M, F>>, AllocError>
    ensures { IfOk result (λ servers. servers.items ≡ replicate count nobody) }
{
    let mut servers = Vec::with_capacity(alloc, count as usize)?;
    for _place in 0..count {
        servers.push_reserved(Alone::vacant());
    }
    Ok(servers)
}
