//! How a participant gives pages up.
ghost use Rattle.std.specs.Prelude.{◌≡◌, ◌≢◌, ℕ, ◌+◌, ◌<◌, List, [], ◌∷◌, false, true, Some, OnErr, OnOk};
ghost use Rattle.hp_base.specs.Plans.{action_of};
ghost use Rattle.hp_base.specs.declared.plan_entry.MsgKind.{MsgKind};
ghost use Rattle.hp_frame.specs.declared.frame.Frame.{Frame};
ghost use Rattle.hp_segs.specs.Standing.{Holding};
ghost use Rattle.hp_hall.specs.Mail.{MailStep, Posts};
ghost use Rattle.hp_mail.specs.declared.posted.Posted.{Posted};
ghost use Rattle.hp_heap.specs.PlainHeap.{PlainHeap};
ghost use Rattle.hp_segs.specs.SegsView.{SegsView};
ghost use Rattle.hp_segs.specs.Steps.{after_retire};
ghost use Rattle.hp_serve.specs.Asking.{GivesUp, HasSettledAsks, IsCutFrom, free_body};
ghost use Rattle.hp_serve.specs.AskSteps.{DoesNotify, StopsNotifying};
ghost use Rattle.hp_serve.specs.Clocks.{RisesWithin, longest_wait};
ghost use Rattle.hp_serve.specs.Frames.{Says};
ghost use Rattle.hp_serve.specs.Party.{after_free, one_more};
ghost use Rattle.hp_serve.specs.Serving.{gives_segments, takes_segments};
ghost use Rattle.hp_hall.specs.HallState.{Did, HasMapped, IsBusy, Stays};
ghost use Rattle.hp_serve.specs.InHall.{CanServe, IsTiedIn, StaysIn};
ghost use Rattle.hp_serve.specs.SegmentSlot.{MayHold, StaysButParts};

use super::Server;
use crate::own_posts::{free_body, post_own};
use crate::retiring::retire_run;
use crate::sent::one_more;
use hp_base::{Judge, Mapper, MsgKind, Run};
use hp_hall::{Hall, Waiting};
use std::alloc::AllocError;

impl<'p, M: Mapper> Server<'p, M> {
    /// Gives up a run that was cut from a heap that it holds: under the segment slot the run's rows become Retiring. The heap may be given
    /// back afterwards. After malloc_heap_free_pages of rte_malloc.
    pub fn retire<H: Hall>(&self, hall: &mut H, heap: u32, run: &Run)
        requires may { MayHold self.now.me (H.state hall.old) }
        requires cut { (holding : Holding) × (left : PlainHeap)
            × (((H.state hall.old).part self.now.me heap).holding ≡ Some holding) × IsCutFrom heap run.now holding left }
        ensures gives_up { GivesUp heap run.now ((H.state hall.old).part self.now.me heap) ((H.state hall.new).part self.now.me heap) }
        ensures others { (other : ℕ) → other ≢ heap → (H.state hall.new).part self.now.me other
            ≡ (H.state hall.old).part self.now.me other }
        ensures did { (taken : SegsView) × Did self.now.me (takes_segments taken
            ∷ gives_segments (after_retire heap run.now taken) ∷ []) (H.state hall.old) (H.state hall.new) }

        // Its asks stay settled, and where it is in the roster its table has the pages of the heaps that it holds.
        ensures settled { HasSettledAsks ((H.state hall.old).part self.now.me) ((H.state hall.old).heard self.now.me)
            → HasSettledAsks ((H.state hall.new).part self.now.me) ((H.state hall.new).heard self.now.me) }
        ensures mapped { HasMapped self.now.me (H.state hall.new) }
        ensures stays { StaysButParts self.now.me (H.state hall.old) (H.state hall.new) }
        ensures goes_on { H.goes_on hall.old hall.new }
    {
        retire_run(hall, self.me, heap, run);
    }

    // Sends the notice that a run was given up, under the next number after that of its last ask.
    fn send_notice<H: Hall>(&mut self, hall: &mut H, number: u64, heap: u32, run: &Run)
        requires serves { (H.state hall.old).serves self.old.me }
        requires me { self.old.me < (H.state hall.old).count }
        requires tied { IsTiedIn self.old.me self.old (H.state hall.old) }
        ensures sent { self.new ≡ after_free number self.old }
        ensures did { (frame : Frame) × (posted : Posted) × Says frame (free_body self.old.me number heap run.now)
            × Did self.old.me (Posts 0 frame (action_of self.old.plan MsgKind.Free self.old.me (one_more
            self.old.sent.frees)) posted ∷ []) (H.state hall.old) (H.state hall.new) }
        ensures tied { IsTiedIn self.old.me self.new (H.state hall.new) }
        ensures stays { Stays self.old.me (H.state hall.old) (H.state hall.new) }
        ensures goes_on { H.goes_on hall.old hall.new }
    {
        let sent = one_more(self.sent.frees);
        let body = free_body(self.me, number, heap, run);
        post_own(hall, self.me, self.plan, MsgKind::Free, sent, body);
        self.asked = number;
        self.answered = false;
        self.sent.frees = sent;
    }

    /// Tells the coordinator that a run of a heap was given up, and waits for its answer, for three deadlines at most. What comes of it
    /// does not matter. It serves while it waits, and holds the slots that it held before. Where its numbers have come to an end,
    /// nothing is sent; there it refuses, and where somebody stops while it waits. After the notice of freed memory of a secondary process in
    /// rte_malloc, under Multi-process Support.
    pub fn notify<H: Waiting, J: Judge>(
        &mut self,
        hall: &mut H,
        heap: u32,
        run: &Run,
        judge: &J,
    ) -> Result<(), AllocError>
        requires may_ask { J.may_ask judge.now }
        requires can { CanServe self.old.me self.old (H.state hall.old) }
        ensures did { OnOk result ((steps : List MailStep) × Did self.old.me steps (H.state hall.old) (H.state hall.new)
            × DoesNotify (J.denies judge.now) (H.state hall.old).count self.old self.new heap run.now steps) }
        ensures asked { OnOk result (self.new.asked ≡ self.old.asked + 1) }
        ensures err { OnErr result ((steps : List MailStep) × Did self.old.me steps (H.state hall.old) (H.state hall.new)
            × StopsNotifying (J.denies judge.now) (H.state hall.old).count self.old self.new heap run.now steps) }
        ensures clock { RisesWithin H.pending (λ hall. IsBusy (H.state hall)) (longest_wait self.old.deadline)
            (H.state hall.old).clock (H.state hall.new).clock }
        ensures stays { StaysIn self.old.me self.old self.new (H.state hall.old) (H.state hall.new) }
        ensures goes_on { H.goes_on hall.old hall.new }
    {
        let Some(number) = self.asked.checked_add(1) else {
            return Err(AllocError);
        };
        self.send_notice(hall, number, heap, run);
        let since = hall.now(self.me);
        let until = self.waits_until(since);
        let _reading = self.wait(hall, until, true, judge)?;
        Ok(())
    }
}
