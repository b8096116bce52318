//! How a participant asks for pages.
ghost use Rattle.std.specs.Prelude.{◌≡◌, ◌≢◌, ℕ, ◌^◌, ◌<◌, ◌≤◌, ◌⊎◌, ◌||◌, min, List, [], ◌∷◌, true, IfOk, IsSome, OnErr};
ghost use Rattle.hp_base.specs.Plans.{action_of};
ghost use Rattle.hp_base.specs.declared.limits.TheConstants.{MAX_PARTICIPANTS, MAX_READING};
ghost use Rattle.hp_base.specs.declared.plan_entry.MsgKind.{MsgKind};
ghost use Rattle.hp_frame.specs.declared.frame.Frame.{Frame};
ghost use Rattle.hp_hall.specs.Mail.{MailStep, Notes, Posts};
ghost use Rattle.hp_hall.specs.declared.note.Note.{Note};
ghost use Rattle.hp_mail.specs.declared.posted.Posted.{Posted};
ghost use Rattle.hp_serve.specs.Asking.{IsAwaiting, IsHeldAsBefore, HasSettledAsks, Settles, alloc_body};
ghost use Rattle.hp_serve.specs.AskSteps.{AsksIn, AsksNothing, IsAwaitedOn, IsSettledOn, waits_until};
ghost use Rattle.hp_serve.specs.Clocks.{RisesWithin, longest_wait};
ghost use Rattle.hp_serve.specs.Frames.{Says};
ghost use Rattle.hp_serve.specs.Party.{after_alloc, one_more};
ghost use Rattle.hp_serve.specs.Waiting.{IsReading};
ghost use Rattle.hp_hall.specs.HallState.{Did, HasMapped, IsBusy, Stays};
ghost use Rattle.hp_serve.specs.InHall.{CanServe, IsTiedIn, RemainsIn};

use super::Server;
use crate::answered::Answered;
use crate::arming::arm;
use crate::own_posts::{alloc_body, post_own};
use crate::pages_asked::PagesAsked;
use crate::sent::one_more;
use crate::settling::{Found, look, settle};
use hp_base::{Judge, MAX_READING, Mapper, MsgKind};
use hp_hall::{Hall, Waiting};
use hp_segs::Ask;
use std::alloc::AllocError;

// One of two stopped.
fn either(first: bool, second: bool) -> bool
    ensures { result ≡ (first || second) }
{
    first || second
}

impl<'p, M: Mapper> Server<'p, M> {
    // Until when it waits for an answer, where that is a reading of the clock from before it asked: for three of its deadlines.
    pub(super) fn waits_until(&self, since: u64) -> u64
        ensures { result ≡ waits_until since self.now.deadline }
    {
        since.saturating_add(self.deadline.saturating_mul(3))
    }

    // Sends an ask with which it is armed, and notes it as its last one. Returned is a reading of the clock from before it was sent,
    // or the latest one from which it waits, where that is smaller.
    fn send<H: Hall>(&mut self, hall: &mut H, ask: &Ask) -> u64
        requires serves { (H.state hall.old).serves self.old.me }
        requires me { self.old.me < (H.state hall.old).count }
        requires own { ask.now.from ≡ self.old.me }
        requires tied { IsTiedIn self.old.me self.old (H.state hall.old) }
        ensures early { result ≤ 2 ^ 63 }
        ensures read { H.pending (H.state hall.new).clock result ≡ 0 }
        ensures before { IsReading (λ deadline. deadline ≤ 2 ^ 63 → H.pending (H.state hall.new).clock deadline ≡ H.scale) result }
        ensures sent { self.new ≡ after_alloc ask.now.number self.old }
        ensures did { (now : ℕ) × (frame : Frame) × (posted : Posted) × (result ≡ min now MAX_READING)
            × Says frame (alloc_body ask.now) × Did self.old.me (Notes (Note.Read now)
            ∷ Posts 0 frame (action_of self.old.plan MsgKind.Alloc self.old.me (one_more self.old.sent.allocs)) posted ∷ [])
            (H.state hall.old) (H.state hall.new) }
        ensures tied { IsTiedIn self.old.me self.new (H.state hall.new) }
        ensures stays { Stays self.old.me (H.state hall.old) (H.state hall.new) }
        ensures goes_on { H.goes_on hall.old hall.new }
    {
        // A reading from before it asked stays one when it is made smaller; so three deadlines after it are below the end of the clock's
        // type.
        let since = hall.now(self.me).min(MAX_READING);
        let number = one_more(self.sent.allocs);
        let body = alloc_body(ask);
        post_own(hall, self.me, self.plan, MsgKind::Alloc, number, body);
        self.asked = ask.number;
        self.answered = false;
        self.sent.allocs = number;
        since
    }

    // Waits until its deadlines have passed, whether it was answered or not and also where somebody stops, and then settles its ask.
    fn settle_late<H: Waiting, J: Judge>(
        &mut self,
        hall: &mut H,
        ask: &Ask,
        since: u64,
        judge: &J,
    ) -> Answered
        requires may_ask { J.may_ask judge.now }
        requires can { CanServe self.old.me self.old (H.state hall.old) }
        requires own { ask.now.from ≡ self.old.me }
        requires few { ask.now.from < MAX_PARTICIPANTS }
        requires awaits { IsAwaiting ask.now ((H.state hall.old).part self.old.me) }
        ensures settles { Settles ((H.state hall.new).seen self.old.me) ((H.state hall.new).heard self.old.me) ask.now
            ((H.state hall.old).part self.old.me) ((H.state hall.new).part self.old.me) result.run }
        ensures did { (steps : List MailStep) × Did self.old.me steps (H.state hall.old) (H.state hall.new)
            × IsSettledOn (J.denies judge.now) (H.state hall.old).count self.old self.new ask.now since steps result.stopped }
        ensures asked { self.new.asked ≡ self.old.asked }
        ensures clock { ((H.state hall.new).clock ≡ (H.state hall.old).clock) ⊎ ((H.state hall.new).clock
            ≤ waits_until since self.old.deadline) }
        ensures mapped { HasMapped self.old.me (H.state hall.new) }
        ensures remains { RemainsIn self.old.me self.old self.new (H.state hall.old) (H.state hall.new) }
        ensures goes_on { H.goes_on hall.old hall.new }
    {
        let until = self.waits_until(since);
        let waited = self.wait_out(hall, until, false, judge);
        let run = settle(hall, ask, since, waited.reading);
        Answered {
            run,
            stopped: waited.stopped,
        }
    }

    // Waits for the answer to the ask that it sent after that reading of the clock, for three deadlines at most, also where somebody stops,
    // and then looks. Where it was answered and neither a grant nor a refusal stands, it waits until the deadlines have passed.
    fn await_answer<H: Waiting, J: Judge>(
        &mut self,
        hall: &mut H,
        ask: &Ask,
        since: u64,
        judge: &J,
    ) -> Answered
        requires may_ask { J.may_ask judge.now }
        requires can { CanServe self.old.me self.old (H.state hall.old) }
        requires own { ask.now.from ≡ self.old.me }
        requires few { ask.now.from < MAX_PARTICIPANTS }
        requires awaits { IsAwaiting ask.now ((H.state hall.old).part self.old.me) }
        ensures settles { Settles ((H.state hall.new).seen self.old.me) ((H.state hall.new).heard self.old.me) ask.now
            ((H.state hall.old).part self.old.me) ((H.state hall.new).part self.old.me) result.run }
        ensures did { (steps : List MailStep) × Did self.old.me steps (H.state hall.old) (H.state hall.new)
            × IsAwaitedOn (J.denies judge.now) (H.state hall.old).count self.old self.new ask.now since steps result.run result.stopped }
        ensures asked { self.new.asked ≡ self.old.asked }
        ensures clock { ((H.state hall.new).clock ≡ (H.state hall.old).clock) ⊎ ((H.state hall.new).clock
            ≤ waits_until since self.old.deadline) }
        ensures mapped { HasMapped self.old.me (H.state hall.new) }
        ensures remains { RemainsIn self.old.me self.old self.new (H.state hall.old) (H.state hall.new) }
        ensures goes_on { H.goes_on hall.old hall.new }
    {
        let until = self.waits_until(since);
        let waited = self.wait_out(hall, until, true, judge);
        match look(hall, ask) {
            Found::Settled { run } => Answered {
                run,
                stopped: waited.stopped,
            },
            Found::Open => {
                let late = self.settle_late(hall, ask, since, judge);
                Answered {
                    run: late.run,
                    stopped: either(waited.stopped, late.stopped),
                }
            }
        }
    }

    /// Asks the coordinator for pages for a heap that it holds, waits for the answer, and claims the run that was granted; there is none
    /// where the ask was refused, or taken back after three deadlines. It serves while it waits, and holds the slots that it held before.
    /// Once it is armed, its ask is settled in the end: where somebody stops while it serves it waits on, for no longer than it would have,
    /// and its answer says so. Without memory to be armed, nothing is asked, and it refuses. After the growth of a heap by a secondary
    /// process in rte_malloc, under Multi-process Support.
    pub fn ask<H: Waiting, J: Judge>(
        &mut self,
        hall: &mut H,
        asked: &PagesAsked,
        judge: &J,
    ) -> Result<Answered, AllocError>
        requires may_ask { J.may_ask judge.now }
        requires can { CanServe self.old.me self.old (H.state hall.old) }
        requires holds { IsSome ((H.state hall.old).part self.old.me asked.now.heap).holding }
        requires settled { HasSettledAsks ((H.state hall.old).part self.old.me) ((H.state hall.old).heard self.old.me) }

        // What it asked for and was answered, and what came to the heap.
        ensures asks { IfOk result (AsksIn (J.denies judge.now) self.old.me self.old self.new asked.now (H.state hall.old)
            (H.state hall.new)) }

        // Its asks are settled, and where it is in the roster its table has the pages of the heaps that it holds.
        ensures settled { HasSettledAsks ((H.state hall.new).part self.old.me) ((H.state hall.new).heard self.old.me) }
        ensures mapped { HasMapped self.old.me (H.state hall.new) }

        // What it has in all other heaps stays. Where nothing was asked it took the segment value and gave it back, and is as it was.
        ensures others { (heap : ℕ) → heap ≢ asked.now.heap
            → IsHeldAsBefore ((H.state hall.old).part self.old.me heap) ((H.state hall.new).part self.old.me heap) }
        ensures err { OnErr result (AsksNothing self.old.me self.old self.new (H.state hall.old) (H.state hall.new)) }
        ensures clock { RisesWithin H.pending (λ hall. IsBusy (H.state hall)) (longest_wait self.old.deadline)
            (H.state hall.old).clock (H.state hall.new).clock }
        ensures remains { RemainsIn self.old.me self.old self.new (H.state hall.old) (H.state hall.new) }
        ensures goes_on { H.goes_on hall.old hall.new }
    {
        let ask = arm(hall, self.me, self.asked, asked)?;
        let since = self.send(hall, &ask);
        let answered = self.await_answer(hall, &ask, since, judge);
        Ok(answered)
    }
}
