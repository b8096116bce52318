//! How a participant waits to the end of its wait, even if somebody stops meanwhile.
ghost use Rattle.std.specs.Prelude.{◌≡◌, ◌+◌, ◌*◌, ◌<◌, ◌≤◌, ◌⊎◌, List, false, true, unwrap_or};
ghost use Rattle.std.specs.Result.{result_ok};
ghost use Rattle.hp_hall.specs.HallState.{Did};
ghost use Rattle.hp_hall.specs.Mail.{MailStep};
ghost use Rattle.hp_hall.specs.Measures.{moved_of};
ghost use Rattle.hp_serve.specs.Falling.{if_moved, served_of};
ghost use Rattle.hp_serve.specs.InHall.{CanServe, StaysIn, left_to_do};
ghost use Rattle.hp_serve.specs.Party.{due_in};
ghost use Rattle.hp_serve.specs.Waiting.{HaveServedOn, IsOutlasted, IsTurnedOn, IsWaitedOut, LeavesAsked, PausesFor};

use super::Server;
use super::waiting::has_moved;
use crate::waited::Waited;
use hp_base::{Judge, Mapper};
use hp_hall::Waiting;
use std::alloc::AllocError;

// Whether others moved something, by what letting them serve answered: one that stopped did something.
fn others_moved(answer: Result<bool, AllocError>) -> bool
    ensures weighs { if_moved result ≡ moved_of answer }
    ensures moved { result ≡ unwrap_or (result_ok answer) true }
{
    match answer {
        Ok(moved) => moved,
        Err(AllocError) => true,
    }
}

// Whether its own serving did something, by what that answered: where it stopped, that counts as nothing.
fn own_moved(answer: Result<bool, AllocError>) -> bool
    ensures weighs { if_moved result ≡ served_of answer }
    ensures moved { result ≡ unwrap_or (result_ok answer) false }
{
    match answer {
        Ok(moved) => moved,
        Err(AllocError) => false,
    }
}

impl<'p, M: Mapper> Server<'p, M> {
    // A turn without its pause, in which all serve, also where somebody stops. Returned is whether something moved.
    fn serve_on<H: Waiting, J: Judge>(&mut self, hall: &mut H, judge: &J) -> bool
        requires may_ask { J.may_ask judge.now }
        requires can { CanServe self.old.me self.old (H.state hall.old) }
        ensures served { (steps : List MailStep) × Did self.old.me steps (H.state hall.old) (H.state hall.new)
            × HaveServedOn (J.denies judge.now) (H.state hall.old).count self.old self.new steps result }
        ensures measure { left_to_do H.scale H.pending self.new (H.state hall.new) + H.scale * if_moved result
            ≤ left_to_do H.scale H.pending self.old (H.state hall.old) }
        ensures clock { (H.state hall.new).clock ≡ (H.state hall.old).clock }
        ensures asks { LeavesAsked self.old self.new }
        ensures stays { StaysIn self.old.me self.old self.new (H.state hall.old) (H.state hall.new) }
        ensures goes_on { H.goes_on hall.old hall.new }
    {
        let me = self.me;
        let below = others_moved(hall.others(me, false));
        let own = own_moved(self.serve_some(hall, judge));
        let above = others_moved(hall.others(me, true));
        has_moved(own, below, above)
    }

    // A turn of a wait until a deadline, which comes to its end also where somebody stops.
    fn turn_on<H: Waiting, J: Judge>(&mut self, hall: &mut H, until: u64, judge: &J)
        requires may_ask { J.may_ask judge.now }
        requires can { CanServe self.old.me self.old (H.state hall.old) }
        requires before { H.pending (H.state hall.old).clock until ≡ H.scale }
        ensures turned { (steps : List MailStep) × Did self.old.me steps (H.state hall.old) (H.state hall.new)
            × IsTurnedOn (J.denies judge.now) (H.state hall.old).count until self.old self.new steps }
        ensures falls { left_to_do H.scale H.pending self.new (H.state hall.new) + H.pending (H.state hall.new).clock until
            < left_to_do H.scale H.pending self.old (H.state hall.old) + H.pending (H.state hall.old).clock until }
        ensures paused { PausesFor (λ deadline. H.pending (H.state hall.old).clock deadline
            ≡ H.scale) until (due_in self.new.core) (H.state hall.old).clock (H.state hall.new).clock }
        ensures asks { LeavesAsked self.old self.new }
        ensures stays { StaysIn self.old.me self.old self.new (H.state hall.old) (H.state hall.new) }
        ensures goes_on { H.goes_on hall.old hall.new }
    {
        let moved = self.serve_on(hall, judge);
        self.end_turn(hall, until, moved);
    }

    // Takes turns that come to their ends until a reading of the clock has reached the deadline, or, where the wait is for that, its last
    // ask is answered. Returned is the last reading.
    fn outlast<H: Waiting, J: Judge>(
        &mut self,
        hall: &mut H,
        until: u64,
        heeds: bool,
        judge: &J,
    ) -> u64
        requires may_ask { J.may_ask judge.now }
        requires can { CanServe self.old.me self.old (H.state hall.old) }
        ensures turned { (steps : List MailStep) × Did self.old.me steps (H.state hall.old) (H.state hall.new)
            × IsOutlasted (J.denies judge.now) (H.state hall.old).count until heeds self.old self.new steps result }
        ensures clock { ((H.state hall.new).clock ≡ (H.state hall.old).clock) ⊎ ((H.state hall.new).clock ≤ until) }
        ensures asks { LeavesAsked self.old self.new }
        ensures stays { StaysIn self.old.me self.old self.new (H.state hall.old) (H.state hall.new) }
        ensures goes_on { H.goes_on hall.old hall.new }
    {
        'waiting: loop {
            let reading = hall.now(self.me);
            let over = self.ends_wait(reading, until, heeds);
            if over {
                return reading;
            }
            self.turn_on(hall, until, judge);
        }
    }

    // Waits as `wait` does, and for as long where somebody stops: it and the others serve on.
    pub(crate) fn wait_out<H: Waiting, J: Judge>(
        &mut self,
        hall: &mut H,
        until: u64,
        heeds: bool,
        judge: &J,
    ) -> Waited
        requires may_ask { J.may_ask judge.now }
        requires can { CanServe self.old.me self.old (H.state hall.old) }
        ensures turned { (steps : List MailStep) × Did self.old.me steps (H.state hall.old) (H.state hall.new)
            × IsWaitedOut (J.denies judge.now) (H.state hall.old).count until heeds self.old self.new steps result.reading result.stopped }
        ensures clock { ((H.state hall.new).clock ≡ (H.state hall.old).clock) ⊎ ((H.state hall.new).clock ≤ until) }
        ensures asks { LeavesAsked self.old self.new }
        ensures stays { StaysIn self.old.me self.old self.new (H.state hall.old) (H.state hall.new) }
        ensures goes_on { H.goes_on hall.old hall.new }
    {
        match self.wait(hall, until, heeds, judge) {
            Ok(reading) => Waited {
                reading,
                stopped: false,
            },
            Err(AllocError) => {
                let reading = self.outlast(hall, until, heeds, judge);
                Waited {
                    reading,
                    stopped: true,
                }
            }
        }
    }
}
