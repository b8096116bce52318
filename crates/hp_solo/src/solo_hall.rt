//! A hall in which participants take turns in one thread.
ghost use Rattle.std.specs.Prelude.{◌≡◌, ◌≢◌, ◌<◌, ℕ, [], None, Some, IfOk, IfSome, length, option_map, replicate};
ghost use Rattle.hp_plain.specs.HallView.{IsHall};
ghost use Rattle.hp_solo.specs.Solo.{IsAway, IsSolo, IsTiedAt, has_stopped, limits_at, limits_of, nobody, party_at, party_of, server_at, with_party};

mod calls;
mod deadlines;
mod draining;
mod ending;
mod serving;
mod waiting;

use crate::alone::{Alone, places};
use hp_base::Mapper;
use hp_hall::Hall;
use hp_plain::PlainHall;
use hp_serve::{Decide, JudgedServer};
use std::alloc::{AllocError, Global};
use std::marker::Model;

/// A hall of plain values and the participants, who take turns in one thread: while one of them does its line, the others are there
/// and serve whenever it waits. Contracts see it as a `SoloView`. Own.
#[derive(Drop)]
pub struct SoloHall<'p, M: Mapper, F: Decide + Copy + Drop> {
    plain: PlainHall,
    servers: Vec<Alone<'p, M, F>>,
}

impl<'p, M: Mapper, F: Decide + Copy + Drop> Model for SoloHall<'p, M, F> {
    ghost use Rattle.hp_solo.specs.Solo.{SoloView, IsSolo};

    ghost Value = { SoloView };

    ghost view = { λ a. record { plain = a.plain; servers = a.servers.items } };

    ghost invariant = { λ a. IsSolo (record { plain = a.plain; servers = a.servers.items }) };
}

impl<'p, M: Mapper, F: Decide + Copy + Drop> SoloHall<'p, M, F> {
    /// A hall of these values, with a place for each of their participants, who are all away. Own.
    pub fn new(alloc: Global, plain: PlainHall) -> Result<SoloHall<'p, M, F>, AllocError>
        ensures { IfOk result (λ hall. hall ≡ record { plain = plain; servers = replicate (length plain.owns) nobody }) }
    {
        let servers = places(alloc, plain.participants())?;
        Ok(SoloHall { plain, servers })
    }

    /// Takes a participant out with its validators, which does its line from then on; it is `None` where it is out already. Own.
    pub fn away(&mut self, me: u8) -> Option<Box<JudgedServer<'p, M, F>>>
        requires declared { me < length self.old.plain.owns }
        ensures party { party_of result ≡ party_at self.old.servers me }
        ensures limits { limits_of result ≡ limits_at self.old.servers me }
        ensures tied { IfSome result (λ judged. IsTiedAt self.new.plain me judged.value.server) }
        ensures away { IsAway (server_at self.new.servers me) }
        ensures place { server_at self.new.servers me ≡ option_map (with_party None []) (server_at self.old.servers me) }
        ensures others { (who : ℕ) → who ≢ me → server_at self.new.servers who ≡ server_at self.old.servers who }
        ensures plain { self.new.plain ≡ self.old.plain }
    {
        self.servers[me as usize].away()
    }

    /// A participant comes back from its line, and serves from then on by its validators. Own.
    pub fn back(&mut self, participant: Box<JudgedServer<'p, M, F>>)
        requires declared { participant.value.server.me < length self.old.plain.owns }
        requires tied { IsTiedAt self.old.plain participant.value.server.me participant.value.server }
        ensures party { party_at self.new.servers participant.entry.value.server.me ≡ Some participant.entry.value.server }
        ensures place { server_at self.new.servers participant.entry.value.server.me
            ≡ option_map (with_party (Some participant.entry.value.server) participant.entry.value.limits)
            (server_at self.old.servers participant.entry.value.server.me) }
        ensures others { (who : ℕ) → who ≢ participant.entry.value.server.me
            → server_at self.new.servers who ≡ server_at self.old.servers who }
        ensures plain { self.new.plain ≡ self.old.plain }
    {
        let me = participant.server.number();
        self.servers[me as usize].back(participant);
    }

    /// Ends the hall, and hands out its plain values. Own.
    pub fn into_plain(self) -> PlainHall
        ensures { result ≡ self.entry.plain }
    {
        self.plain
    }

    /// What holds of every such hall: each participant of its values has a place, and the table of each that is there is tied to what the
    /// values have of it. It does nothing. Own.
    pub fn sound(&self)
        ensures { IsSolo self.now }
    {
        let _ = &self.servers;
    }

    /// What holds of every hall holds of its plain values. It does nothing. Own.
    pub fn plain_sound(&self)
        ensures { IsHall self.now.plain }
    {
        self.plain.sound();
    }

    /// Whether one of the participants that are there has met a refusal of memory. Own.
    pub fn has_stopped(&self) -> bool
        ensures { result ≡ has_stopped self.now.servers }
    {
        self.servers.iter().any(|server| server.is_stopped())
    }
}
