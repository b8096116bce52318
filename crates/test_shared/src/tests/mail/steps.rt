//! Steps of one thread.
ghost use Rattle.std.specs.Prelude.{◌≡◌, ◌<◌, ◌≤◌, IfOk};
ghost use Rattle.hp_mail.specs.PassView.{IsOwner};

use super::{frame_of, said, three};
use hp_base::Action;
use hp_mail::{Mailbox, Pass, Posted};
use std::alloc::{AllocError, Global};
use std::sync::Wait;
use std::test::Fail;

// A mailbox of participant 2, with the passes of participant 0 and of its own.
#[derive(Drop)]
struct Office {
    mailbox: Mailbox,
    sender: Pass,
    owner: Pass,
    ghost sends: { sender.mailbox ≡ mailbox.id },
    ghost fetches: { (owner.mailbox ≡ mailbox.id) × IsOwner owner },
}

// A thing to do, with the answer that is wanted.
#[derive(Clone, Copy)]
enum Step {
    // Participant 0 posts a frame with a number, as planned.
    Post(u32, Action, Posted),
    // Participant 0 posts frames with the numbers below one, each once.
    Fill(u32),
    // The owner fetches what says that number, or nothing.
    Fetch(Option<u32>),
    // The owner posts a frame with a number to itself, and fetches its own.
    PostOwn(u32),
    FetchOwn(u32),
    // The owner's pass meets itself.
    MeetItself,
}

const LOSE: Action = Action::Lose { line: 5 };

const REPEAT: Action = Action::Repeat { line: 6 };

impl Office {
    fn open(alloc: Global, capacity: usize) -> Result<Office, AllocError>
        requires { (0 < capacity) × (capacity ≤ 64) }
    {
        let (mailbox, passes) = Mailbox::new(alloc, capacity, 3, 2)?;
        let Some((sender, _, owner)) = three(passes) else {
            return Err(AllocError);
        };
        Ok(Office {
            mailbox,
            sender,
            owner,
        })
    }

    // Whether a post is answered so.
    fn posts<R: Wait>(&mut self, rt: &R, number: u32, action: Action, posted: Posted) -> bool {
        let frame = frame_of(0, number);
        self.mailbox.post(rt, &mut self.sender, frame, action) == posted
    }

    // Whether the next frame says that number.
    fn fetches<R: Wait>(&mut self, rt: &R, number: Option<u32>) -> bool {
        let frame = self.mailbox.fetch(rt, &mut self.owner);
        let found = frame.map(|frame| said(&frame));
        match number {
            Some(number) => found == Some(Some((0, number))),
            None => found.is_none(),
        }
    }

    // Whether the owner's own post finds room.
    fn posts_own<R: Wait>(&mut self, rt: &R, number: u32) -> bool {
        let frame = frame_of(2, number);
        let posted = self
            .mailbox
            .post(rt, &mut self.owner, frame, Action::Deliver);
        posted == Posted::Sent
    }

    // Whether the next frame is the owner's own with that number.
    fn fetches_own<R: Wait>(&mut self, rt: &R, number: u32) -> bool {
        let frame = self.mailbox.fetch(rt, &mut self.owner);
        frame.map(|frame| said(&frame)) == Some(Some((2, number)))
    }

    // The owner's pass meets itself, which changes nothing.
    fn meets_itself(&mut self) -> bool {
        self.mailbox.meet_itself(&mut self.owner);
        true
    }

    // Whether frames with all numbers below one find room.
    fn fills<R: Wait>(&mut self, rt: &R, count: u32) -> bool {
        let mut all = true;
        for number in 0..count {
            all = self.posts(rt, number, Action::Deliver, Posted::Sent) && all;
        }
        all
    }

    // Whether a step is answered as it should be.
    fn does<R: Wait>(&mut self, rt: &R, step: Step) -> bool {
        match step {
            Step::Post(number, action, posted) => self.posts(rt, number, action, posted),
            Step::Fill(count) => self.fills(rt, count),
            Step::Fetch(number) => self.fetches(rt, number),
            Step::PostOwn(number) => self.posts_own(rt, number),
            Step::FetchOwn(number) => self.fetches_own(rt, number),
            Step::MeetItself => self.meets_itself(),
        }
    }
}

// How many steps are done before one is answered otherwise.
fn done<R: Wait>(
    rt: &R,
    alloc: Global,
    capacity: usize,
    steps: &[Step],
) -> Result<usize, AllocError>
    requires { (0 < capacity) × (capacity ≤ 64) }
{
    let mut office = Office::open(alloc, capacity)?;
    let mut count = 0;
    for step in steps {
        if !office.does(rt, *step) {
            return Ok(count);
        }
        count = count.saturating_add(1);
    }
    Ok(count)
}

#[test]
fn the_65th_frame_finds_no_room(rt: HostRuntime) -> Result<(), Fail> {
    let steps = [
        Step::Fill(64),
        Step::Post(64, Action::Deliver, Posted::Full),
        Step::Fetch(Some(0)),
        Step::Post(65, Action::Deliver, Posted::Sent),
        Step::Post(66, REPEAT, Posted::Full),
        Step::Fetch(Some(1)),
    ];
    assert!(rt; done(&rt, rt.alloc(), 64, &steps)? == 6);
    Ok(())
}

#[test]
fn loses_and_repeats_as_planned(rt: HostRuntime) -> Result<(), Fail> {
    let steps = [
        Step::Post(1, LOSE, Posted::Lost { line: 5 }),
        Step::Fetch(None),
        Step::Post(2, REPEAT, Posted::Twice),
        Step::Fetch(Some(2)),
        Step::Post(3, Action::Deliver, Posted::Sent),
        Step::Post(4, REPEAT, Posted::Sent),
        Step::Post(5, LOSE, Posted::Lost { line: 5 }),
        Step::Post(6, Action::Deliver, Posted::Full),
        Step::Fetch(Some(2)),
        Step::Fetch(Some(3)),
        Step::Fetch(Some(4)),
        Step::Fetch(None),
    ];
    assert!(rt; done(&rt, rt.alloc(), 3, &steps)? == 12);
    Ok(())
}

#[test]
fn the_owner_meets_itself_at_any_time(rt: HostRuntime) -> Result<(), Fail> {
    let steps = [
        Step::MeetItself,
        Step::PostOwn(1),
        Step::Post(2, Action::Deliver, Posted::Sent),
        Step::MeetItself,
        Step::FetchOwn(1),
        Step::MeetItself,
        Step::Fetch(Some(2)),
        Step::MeetItself,
        Step::Fetch(None),
    ];
    assert!(rt; done(&rt, rt.alloc(), 3, &steps)? == 9);
    Ok(())
}
