//! The line that goes on once another participant has done its first lines.
ghost use Rattle.std.specs.Prelude.{◌≡◌, ◌<◌, IfOk, OnErr};
ghost use Rattle.hp_hall.specs.HallState.{IsBusy};
ghost use Rattle.hp_script.specs.declared.line.Act.TheVariants as act;
ghost use Rattle.hp_serve.specs.Clocks.{RisesWithin};
ghost use Rattle.hp_proc.specs.Awaiting.{CanAwait};
ghost use Rattle.hp_proc.specs.LineInHall.{DoesLineHere, HaltsLineHere, IsReadyAgain, IsReadyIn};

use super::Participant;
use hp_base::Mapper;
use hp_hall::{Hall, Waiting};
use hp_script::{Answer, Line};
use hp_serve::Decide;
use std::alloc::AllocError;

impl<'p, M: Mapper, F: Decide + Copy + Drop> Participant<'p, M, F> {
    // A line that awaits the first lines of another one. It looks up how many that one has told to be done, and takes turns until these are
    // enough. Where somebody has stopped it stops too, since they may never be.
    pub(crate) fn do_await<H: Waiting>(
        &mut self,
        hall: &mut H,
        line: &Line<'_>,
        other: u8,
        lines: u32,
    ) -> Result<Answer, AllocError>
        requires own { line.now.participant ≡ self.old.party.me }
        requires act { line.now.act ≡ act.Await other lines }
        requires declared { other < (H.state hall.old).count }
        requires can { CanAwait H.scale other lines (H.state hall.old) }
        requires ready { IsReadyIn self.old.party.me self.old (H.state hall.old) }
        ensures does { IfOk result (λ given. DoesLineHere self.old.party.me self.old self.new (H.state hall.old)
            (H.state hall.new) line.now given) }
        ensures halts { OnErr result (HaltsLineHere self.old.party.me self.old self.new (H.state hall.old)
            (H.state hall.new) line.now) }
        ensures clock { RisesWithin H.pending (λ hall. IsBusy (H.state hall)) 0 (H.state hall.old).clock (H.state hall.new).clock }
        ensures ready { IsReadyAgain self.old.party.me self.old self.new (H.state hall.new) }
        ensures goes_on { H.goes_on hall.old hall.new }
    {
        'awaiting: loop {
            if hall.load_done(self.number(), other) >= lines {
                return Ok(Answer::Done);
            }
            if hall.stopped() {
                return Err(AllocError);
            }
            self.turn(hall, u64::MAX)?;
        }
    }
}
