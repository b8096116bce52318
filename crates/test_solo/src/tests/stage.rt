//! Two participants and their hall.
ghost use Rattle.std.specs.Prelude.{◌<◌};

use super::shown::{End, SegsShown, shown_in};
use super::{arm_first, first_page, member, no_limits, plain_hall};
use hp_base::{Action, MemMapper, NoLimits, Plan, Row};
use hp_frame::Frame;
use hp_hall::{Hall, Posted};
use hp_plain::PlainHall;
use hp_proc::{LineContext, Participant};
use hp_script::{Act, Answer, Line};
use hp_serve::{Decision, JudgedServer, Server, put_back, take_segments};
use std::alloc::{AllocError, Global};
use std::marker::Model;
use std::test::Fail;

// A hall of plain values, and its two participants.
#[derive(Drop)]
pub(super) struct Stage<'p> {
    hall: PlainHall,
    primary: Server<'p, MemMapper>,
    secondary: Participant<'p, MemMapper, Decision>,
    plan: &'p Plan,
    alloc: Global,
}

impl<'p> Model for Stage<'p> {
    ghost use Rattle.std.specs.Prelude.{◌≡◌, ℕ, [], length};
    ghost use Rattle.hp_base.specs.declared.limits.TheConstants.{MAX_HEAPS};
    ghost use Rattle.hp_plain.specs.HallView.{HallView, IsHome, joined_in, slot_at};
    ghost use Rattle.hp_solo.specs.Solo.{IsTiedAt, marked_at};

    ghost Value = { HallView };

    ghost view = { λ a. a.hall };

    // The segment value is there, each participant's table is tied to what the hall knows of it, and participant 1 is in the roster where
    // its lines left it attached. It has attached no chunk.
    ghost invariant = { λ a. ((length a.hall.owns ≡ 2) × IsHome (slot_at a.hall MAX_HEAPS) × IsTiedAt a.hall 0 a.primary
        × IsTiedAt a.hall 1 a.secondary.party) × (joined_in a.hall 1 ≡ a.secondary.context.standing.attached)
        × ((a.secondary.context.standing.chunks ≡ []) × ((heap : ℕ) → marked_at a.hall 1 heap ≡ [])) };
}

// What the segment value and the tables show.
#[derive(Clone, Copy, PartialEq, Eq)]
pub(super) struct Shown {
    // How many records the log has, and how many each participant has acknowledged.
    pub records: usize,
    pub numbers: (u64, u64),
    // The free pages of the pool.
    pub left: u64,
    // The first row of each table.
    pub rows: (Option<Row>, Option<Row>),
    // How many outcomes are logged, and the last one, with the number of its participant and of its ask.
    pub outcomes: usize,
    pub last: Option<(u8, u64, End)>,
}

// What a participant leaves: whether it was attached, how many records it had taken in, how many rows it had, and the first of them.
#[derive(Clone, Copy, PartialEq, Eq)]
pub(super) struct Left {
    pub joined: bool,
    pub number: u64,
    pub rows: usize,
    pub first: Option<Row>,
}

// A participant ends: what it leaves.
pub(super) fn left_by(
    participant: Server<'_, MemMapper>,
    alloc: Global,
) -> Result<Left, AllocError> {
    let end = participant.end(alloc)?;
    Ok(Left {
        joined: end.table.joined,
        number: end.table.number,
        rows: end.table.rows.len(),
        first: end.table.rows.first().copied(),
    })
}

impl<'p> Stage<'p> {
    // Two participants that have taken in nothing, in a hall in which participant 1 holds heap 0 and is armed with its first ask.
    pub(super) fn new(alloc: Global, plan: &'p Plan) -> Result<Stage<'p>, Fail> {
        let asked = first_page()?;
        let mut hall = plain_hall(alloc)?;
        arm_first(&mut hall, 1, &asked)?;
        let primary = member(alloc, 0, plan)?;
        let server = member(alloc, 1, plan)?;
        let limits = no_limits(alloc);
        let judged = Box::new(alloc, JudgedServer { server, limits })?;
        let context = LineContext::new(alloc, None, true);
        let secondary = Participant::new(judged, context);
        Ok(Stage {
            hall,
            primary,
            secondary,
            plan,
            alloc,
        })
    }

    // What becomes of the messages and mapping calls.
    pub(super) fn plan(&self) -> &'p Plan {
        self.plan
    }

    // Participant 0 serves once.
    pub(super) fn serve_primary(&mut self) -> Result<bool, AllocError> {
        self.primary.serve(&mut self.hall, &NoLimits)
    }

    // Participant 1 serves once.
    pub(super) fn serve_secondary(&mut self) -> Result<bool, AllocError> {
        self.secondary.serve(&mut self.hall)
    }

    // Participant 1 does a line by which it attaches.
    pub(super) fn attach(&mut self) -> Result<Answer, AllocError> {
        let line = Line {
            line: 1,
            participant: 1,
            act: Act::Attach,
        };
        self.secondary.do_attach(&mut self.hall, &line)
    }

    // The participants in the roster, as bits.
    pub(super) fn roster(&mut self) -> u16 {
        let segs = take_segments(&mut self.hall, 0);
        let roster = segs.roster();
        put_back(&mut self.hall, 0, segs);
        roster
    }

    // One of the two posts to the other.
    pub(super) fn post(&mut self, from: u8, frame: Frame, action: Action) -> Posted
        requires { from < 2 }
    {
        self.hall.post(from, 1 - from, frame, action)
    }

    // The clock jumps in a pause of participant 0, where that reading is not before its own.
    pub(super) fn jump(&mut self, reading: u64) {
        if self.hall.clock() <= reading {
            self.hall.pause(0, false, None, reading);
        }
    }

    // How often a mailbox was full.
    pub(super) fn full_mailboxes(&self) -> u64 {
        self.hall.full_mailboxes()
    }

    // When the deadline of a round passes.
    pub(super) fn due(&self) -> (Option<u64>, Option<u64>) {
        (self.primary.due(), self.secondary.server().due())
    }

    // The numbers of the participants.
    pub(super) fn who(&self) -> (u8, u8) {
        (self.primary.number(), self.secondary.server().number())
    }

    // The first row of each table.
    fn rows(&self) -> Result<(Option<Row>, Option<Row>), AllocError> {
        let first = self.primary.table(self.alloc)?;
        let second = self.secondary.server().table(self.alloc)?;
        Ok((first.rows.first().copied(), second.rows.first().copied()))
    }

    // How many records one has acknowledged, as the other reads it.
    fn number_of(&mut self, who: u8) -> u64
        requires { who < 2 }
    {
        self.hall.load_ack(1 - who, who)
    }

    // Both end: what they leave.
    pub(super) fn end(self, alloc: Global) -> Result<(Left, Left), AllocError> {
        let Stage {
            primary,
            secondary,
            ..
        } = self;
        let (secondary, _context) = secondary.into_parts();
        let secondary = Box::into_inner(secondary);
        Ok((left_by(primary, alloc)?, left_by(secondary.server, alloc)?))
    }

    // What the segment value shows.
    fn look(&mut self) -> SegsShown {
        let segs = take_segments(&mut self.hall, 0);
        let shown = shown_in(&segs);
        put_back(&mut self.hall, 0, segs);
        shown
    }

    // What the segment value and the tables show.
    pub(super) fn shown(&mut self) -> Result<Shown, AllocError> {
        let segs = self.look();
        Ok(Shown {
            records: segs.records,
            numbers: (self.number_of(0), self.number_of(1)),
            left: segs.left,
            rows: self.rows()?,
            outcomes: segs.outcomes,
            last: segs.last,
        })
    }
}
