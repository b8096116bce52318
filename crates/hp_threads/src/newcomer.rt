ghost use Rattle.std.specs.Prelude.{◌≡◌};
ghost use Rattle.hp_proc.specs.ParticipantView.{participant_of};

use hp_base::{Clock, Mapper};
use hp_proc::LineContext;
use hp_serve::{Decide, JudgedServer};
use std::marker::Model;

/// A participant before its first step: what serves and asks for it, with its validators, what it knows of its lines, and its clock. Own.
#[derive(Drop)]
pub struct Newcomer<'p, M: Mapper, C: Clock, F: Decide + Copy + Drop> {
    pub(crate) judged: Box<JudgedServer<'p, M, F>>,
    pub(crate) context: LineContext<'p>,
    pub(crate) clock: C,
}

impl<'p, M: Mapper, C: Clock, F: Decide + Copy + Drop> Model for Newcomer<'p, M, C, F> {
    ghost use Rattle.hp_proc.specs.ParticipantView.{ParticipantView, participant_of};

    ghost Value = { ParticipantView };

    ghost view = { λ a. participant_of a.judged.value.server a.judged.value.limits a.context };
}

impl<'p, M: Mapper, C: Clock, F: Decide + Copy + Drop> Newcomer<'p, M, C, F> {
    /// A participant that serves and asks as this one, by the validators beside it, knows this when it does a line, and reads that clock.
    /// Own.
    pub fn new(
        judged: Box<JudgedServer<'p, M, F>>,
        context: LineContext<'p>,
        clock: C,
    ) -> Newcomer<'p, M, C, F>
        ensures { result ≡ participant_of judged.entry.value.server judged.entry.value.limits context.entry }
    {
        Newcomer {
            judged,
            context,
            clock,
        }
    }
}
