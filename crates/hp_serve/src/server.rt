ghost use Rattle.std.specs.Prelude.{◌≡◌, ◌^◌, ◌≤◌, ◌<◌, [], false, true};
ghost use Rattle.hp_base.specs.declared.limits.TheConstants.{MAX_DEADLINE, MAX_PARTICIPANTS};
ghost use Rattle.hp_maps.specs.MapsView.{calls_of};
ghost use Rattle.hp_serve.specs.Party.{due_in, first_core, opening_party};
ghost use Rattle.hp_serve.specs.Serving.{HasUsedUpCalls};

use crate::catching::is_worn;
use crate::sent::Sent;
use hp_base::{Mapper, Plan};
use hp_core::Coordinator;
use hp_events::Watchers;
use hp_maps::{LocalMaps, Planned};
use std::alloc::Global;
use std::marker::Model;

mod asking;
mod attaching;
mod chunks;
mod ending;
mod events;
mod giving_up;
mod idle;
mod member;
mod messages;
mod outlasting;
mod serving;
mod waiting;
mod watching;

/// One process, but for the lines of the workload that it does: it has a table and those who watch it, and participant 0 also the
/// coordinator of growths. It serves what others send it, asks for pages and waits. After a primary or a secondary process (the chapter
/// Multi-process Support).
#[derive(Drop)]
pub struct Server<'p, M: Mapper> {
    me: u8,
    socket: u32,
    joined: bool,
    maps: LocalMaps<Planned<'p, M>>,
    watchers: Watchers,
    plan: &'p Plan,
    deadline: u64,
    coordinator: Option<Coordinator>,
    asked: u64,
    answered: bool,
    sent: Sent,
}

impl<'p, M: Mapper> Model for Server<'p, M> {
    ghost use Rattle.hp_serve.specs.Party.{IsParticipant, Party};

    ghost Value = { Party };

    ghost view = { λ a. record {
      me = a.me;
      socket = a.socket;
      joined = a.joined;
      maps = a.maps;
      listeners = a.watchers.listeners;
      plan = a.plan.now;
      deadline = a.deadline;
      core = a.coordinator;
      asked = a.asked;
      answered = a.answered;
      sent = a.sent;
    } };

    ghost invariant = { λ a. IsParticipant a.me a.deadline a.coordinator };
}

// The coordinator of a participant: participant 0 has one.
fn coordinator_of(me: u8, deadline: u64) -> Option<Coordinator>
    ensures { result ≡ first_core me deadline }
{
    if me == 0 {
        Some(Coordinator::new(deadline))
    } else {
        None
    }
}

impl<'p, M: Mapper> Server<'p, M> {
    /// The participant with that number, of 0 to 15, on that NUMA socket. `joined` says whether it is attached at the start, with
    /// no record taken in; its table is over a mapper of that plan's for it, and nobody watches it. `deadline` is how long it waits for
    /// others, 1 to 3,600,000 milliseconds. Own.
    pub fn new(
        alloc: Global,
        me: u8,
        socket: u32,
        joined: bool,
        maps: LocalMaps<Planned<'p, M>>,
        plan: &'p Plan,
        deadline: u64,
    ) -> Server<'p, M>
        requires declared { me < MAX_PARTICIPANTS }
        requires some { 1 ≤ deadline }
        requires few { deadline ≤ MAX_DEADLINE }
        requires rows { maps.rows ≡ [] }
        requires number { maps.number ≡ 0 }
        requires calls { maps.answers ≡ [] }
        ensures { result ≡ opening_party me socket joined maps.entry plan.now deadline }
    {
        Server {
            me,
            socket,
            joined,
            maps,
            watchers: Watchers::new(alloc),
            plan,
            deadline,
            coordinator: coordinator_of(me, deadline),
            asked: 0,
            answered: false,
            sent: Sent {
                allocs: 0,
                frees: 0,
                replies: 0,
                syncs: [0; 16],
                answers: [0; 16],
            },
        }
    }

    /// Its number. Own.
    pub fn number(&self) -> u8
        ensures { result ≡ self.now.me }
    {
        self.me
    }

    /// Its number is one of 0 to 15. It does nothing. Own.
    pub fn declared(&self)
        ensures { self.now.me < MAX_PARTICIPANTS }
    {
        let _ = &self.coordinator;
    }

    /// Its own NUMA socket. Own.
    pub fn socket(&self) -> u32
        ensures { result ≡ self.now.socket }
    {
        self.socket
    }

    /// When the deadline of its coordinator's round passes. It is `None` where no round is under way, and for a participant
    /// without a coordinator. Own.
    pub fn due(&self) -> Option<u64>
        ensures { result ≡ due_in self.now.core }
    {
        match &self.coordinator {
            None => None,
            Some(coordinator) => coordinator.due(),
        }
    }

    /// How long it waits for others, in milliseconds: 3,600,000 at most. Own.
    pub fn deadline(&self) -> u64
        ensures deadline { result ≡ self.now.deadline }
        ensures few { result ≤ MAX_DEADLINE }
    {
        self.deadline
    }

    /// How many records its table has taken in. Own.
    pub fn records(&self) -> u64
        ensures { result ≡ self.now.maps.number }
    {
        self.maps.number()
    }

    /// Whether its mapper has made so many calls that it stops where it would map. Own.
    pub fn is_worn(&self) -> bool
        ensures worn { result ≡ true → HasUsedUpCalls self.now.maps }
        ensures fresh { result ≡ false → calls_of self.now.maps ≤ 2 ^ 63 }
    {
        is_worn(&self.maps)
    }
}
