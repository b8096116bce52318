//! How participant 0 serves, and how every participant does.
ghost use Rattle.std.specs.Prelude.{◌≡◌, ℕ, ◌+◌, ◌-◌, ◌*◌, ◌^◌, ◌<◌, ◌≤◌, ◌==◌, List, Bool, false, None, Ok, Some};
ghost use Rattle.std.specs.Result.{result_ok};
ghost use Rattle.hp_hall.specs.Mail.{MailStep};
ghost use Rattle.hp_hall.specs.Measures.{frame_measure};
ghost use Rattle.hp_serve.specs.Coordinating.{IsCoreServed, IsFrameHandled, IsServed};
ghost use Rattle.hp_serve.specs.Falling.{served_of};
ghost use Rattle.hp_serve.specs.Party.{due_in};
ghost use Rattle.hp_serve.specs.Serving.{answer_after};
ghost use Rattle.hp_hall.specs.HallState.{Did};
ghost use Rattle.hp_serve.specs.InHall.{CanCoordinate, CanServe, StaysAlone, left_to_do};

use super::Server;
use hp_base::{Judge, Mapper};
use hp_frame::Frame;
use hp_hall::Hall;
use std::alloc::AllocError;

impl<'p, M: Mapper> Server<'p, M> {
    // Whether it is participant 0, which alone has a coordinator.
    fn is_primary(&self) -> bool
        ensures primary { result ≡ (self.now.me == 0) }
        ensures other { result ≡ false → due_in self.now.core ≡ None }
    {
        self.me == 0
    }

    // Serves by a frame that it has fetched.
    fn dispatch_frame<H: Hall, J: Judge>(
        &mut self,
        hall: &mut H,
        frame: &Frame,
        judge: &J,
    ) -> Result<bool, AllocError>
        requires may_ask { J.may_ask judge.now }
        requires can { CanCoordinate self.old (H.state hall.old) }
        ensures obeyed { (goes : Bool) × (steps : List MailStep) × Did 0 steps (H.state hall.old) (H.state hall.new)
            × IsFrameHandled (J.denies judge.now) (H.state hall.old).count self.old self.new frame.now steps goes
            × (result_ok result ≡ answer_after goes) }
        ensures measure { left_to_do H.scale H.pending self.new (H.state hall.new) + H.scale * served_of result
            ≤ left_to_do H.scale H.pending self.old (H.state hall.old) + H.scale * frame_measure frame.now }
        ensures moves { result ≡ Ok false → ⊥ }
        ensures alone { StaysAlone 0 self.old self.new (H.state hall.old) (H.state hall.new) }
        ensures goes_on { H.goes_on hall.old hall.new }
    {
        self.handle_frame(hall, frame, judge)?;
        Ok(true)
    }

    // How participant 0 serves.
    fn serve_core<H: Hall, J: Judge>(&mut self, hall: &mut H, judge: &J) -> Result<bool, AllocError>
        requires may_ask { J.may_ask judge.now }
        requires can { CanCoordinate self.old (H.state hall.old) }
        ensures served { (steps : List MailStep) × Did 0 steps (H.state hall.old) (H.state hall.new)
            × IsCoreServed (J.denies judge.now) (H.state hall.old).count self.old self.new steps (result_ok result) }
        ensures measure { left_to_do H.scale H.pending self.new (H.state hall.new) + H.scale * served_of result
            ≤ left_to_do H.scale H.pending self.old (H.state hall.old) }
        ensures rests { result ≡ Ok false → (deadline : ℕ) → due_in self.new.core ≡ Some deadline → deadline < 2 ^ 64 - 1
            → H.pending (H.state hall.new).clock deadline ≡ H.scale }
        ensures alone { StaysAlone 0 self.old self.new (H.state hall.old) (H.state hall.new) }
        ensures goes_on { H.goes_on hall.old hall.new }
    {
        match hall.fetch(0) {
            Some(frame) => self.dispatch_frame(hall, &frame, judge),
            None => self.rest(hall, judge),
        }
    }

    /// Serves once: does what the first frame of its mailbox asks, and participant 0, where that is empty, polls for what is due. It
    /// answers whether it did something, and that memory ran out, or its mapper's calls, where it stopped. Between two servings it holds
    /// the slots that it held before. Its coordinator asks the judge before it opens a growth. After the actions of
    /// rte_mp_action_register, by which malloc_mp.c handles messages.
    pub fn serve<H: Hall, J: Judge>(&mut self, hall: &mut H, judge: &J) -> Result<bool, AllocError>
        requires may_ask { J.may_ask judge.now }
        requires can { CanServe self.old.me self.old (H.state hall.old) }

        // What it did, and what that makes of it.
        ensures served { (steps : List MailStep) × Did self.old.me steps (H.state hall.old) (H.state hall.new)
            × IsServed (J.denies judge.now) (H.state hall.old).count self.old self.new steps (result_ok result) }

        // Each serving that does something makes this measure smaller. One that did nothing leaves no deadline that has passed, but
        // one at the end of the clock's type, which never does.
        ensures measure { left_to_do H.scale H.pending self.new (H.state hall.new) + H.scale * served_of result
            ≤ left_to_do H.scale H.pending self.old (H.state hall.old) }
        ensures rests { result ≡ Ok false → (deadline : ℕ) → due_in self.new.core ≡ Some deadline → deadline < 2 ^ 64 - 1
            → H.pending (H.state hall.new).clock deadline ≡ H.scale }
        ensures alone { StaysAlone self.old.me self.old self.new (H.state hall.old) (H.state hall.new) }
        ensures goes_on { H.goes_on hall.old hall.new }
    {
        if self.is_primary() {
            self.serve_core(hall, judge)
        } else {
            self.serve_member(hall)
        }
    }
}
