ghost use Rattle.std.specs.Prelude.{◌≡◌, []};
ghost use Rattle.hp_proc.specs.ParticipantView.{knowing, participant_of};
ghost use Rattle.hp_serve.specs.Watched.{names_of};

use crate::line_context::LineContext;
use hp_base::Mapper;
use hp_serve::{Decide, JudgedServer, Server};
use std::marker::Model;

mod allocating;
mod attaching;
mod awaiting;
mod chunk_lines;
mod external;
mod freeing;
mod growing;
mod heap_calls;
mod holding;
mod lines;
mod looking;
mod memory_lines;
mod names;
mod registering;
mod serving;
mod statistics;
mod unzoning;
mod zones;

/// One process with its lines: it does those of the workload that begin with its number, and serves what others send it while it waits.
/// After a primary or a secondary process (the chapter Multi-process Support).
#[derive(Drop)]
pub struct Participant<'p, M: Mapper, F: Decide + Copy + Drop> {
    judged: Box<JudgedServer<'p, M, F>>,
    context: LineContext<'p>,
}

impl<'p, M: Mapper, F: Decide + Copy + Drop> Model for Participant<'p, M, F> {
    ghost use Rattle.hp_proc.specs.ParticipantView.{ParticipantView, participant_of};

    ghost Value = { ParticipantView };

    ghost view = { λ a. participant_of a.judged.value.server a.judged.value.limits a.context };
}

impl<'p, M: Mapper, F: Decide + Copy + Drop> Participant<'p, M, F> {
    /// A participant that serves and asks as this one, by the validators beside it, and knows this when it does a line. Own.
    pub fn new(
        judged: Box<JudgedServer<'p, M, F>>,
        context: LineContext<'p>,
    ) -> Participant<'p, M, F>
        ensures { result ≡ participant_of judged.entry.value.server judged.entry.value.limits context.entry }
    {
        Participant { judged, context }
    }

    /// What serves and asks for it. Own.
    pub fn server(&self) -> &Server<'p, M>
        ensures { result.now ≡ self.now.party }
    {
        &self.judged.server
    }

    /// What serves and asks for it, with its validators, and what it knows of its lines beside these and its watchers. Own.
    pub fn into_parts(self) -> (Box<JudgedServer<'p, M, F>>, LineContext<'p>)
        ensures server { result.0.value.server ≡ self.entry.party }
        ensures limits { result.0.value.limits ≡ self.entry.context.standing.validators }
        ensures context { result.1 ≡ knowing [] [] self.entry.context }
        ensures watched { names_of self.entry.party.listeners ≡ self.entry.context.standing.watchers }
    {
        self.context.sound();
        (self.judged, self.context)
    }
}
