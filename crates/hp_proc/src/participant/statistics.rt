//! The line that asks for the statistics of a heap without its lock.
ghost use Rattle.std.specs.Prelude.{◌≡◌, IfOk, OnErr, true};
ghost use Rattle.hp_hall.specs.HallState.{IsBusy};
ghost use Rattle.hp_script.specs.declared.line.Act.TheVariants as act;
ghost use Rattle.hp_serve.specs.Clocks.{RisesWithin};
ghost use Rattle.hp_proc.specs.LineInHall.{DoesLineHere, HaltsLineHere, IsReadyAgain, IsReadyIn};

use super::Participant;
use hp_base::Mapper;
use hp_hall::{Hall, Waiting};
use hp_script::{Answer, Line, Token};
use hp_serve::Decide;
use std::alloc::AllocError;

impl<'p, M: Mapper, F: Decide + Copy + Drop> Participant<'p, M, F> {
    // A line that asks for the newest statistics of a heap that anybody has published. It takes the names alone, and gives them back before
    // it reads.
    pub(crate) fn do_stats<H: Waiting>(
        &mut self,
        hall: &mut H,
        line: &Line<'_>,
        name: &Token<'_>,
    ) -> Result<Answer, AllocError>
        requires attached { self.old.context.standing.attached ≡ true }
        requires own { line.now.participant ≡ self.old.party.me }
        requires act { line.now.act ≡ act.Stats name.now }
        requires ready { IsReadyIn self.old.party.me self.old (H.state hall.old) }
        ensures does { IfOk result (λ given. DoesLineHere self.old.party.me self.old self.new (H.state hall.old)
            (H.state hall.new) line.now given) }
        ensures halts { OnErr result (HaltsLineHere self.old.party.me self.old self.new (H.state hall.old)
            (H.state hall.new) line.now) }
        ensures clock { RisesWithin H.pending (λ hall. IsBusy (H.state hall)) 0 (H.state hall.old).clock (H.state hall.new).clock }
        ensures ready { IsReadyAgain self.old.party.me self.old self.new (H.state hall.new) }
        ensures goes_on { H.goes_on hall.old hall.new }
    {
        let Some(place) = self.read_place(hall, name)? else {
            return Ok(Answer::NotFound);
        };
        let (_entries, stats) = hall.read(self.number(), place.index);
        Ok(Answer::Statistics { stats })
    }
}
