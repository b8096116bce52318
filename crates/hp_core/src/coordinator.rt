//! The coordinator and its steps.
ghost use Rattle.std.specs.Prelude.{◌≡◌, ◌<◌, [], None, is_some, option_copied, replicate};
ghost use Rattle.std.specs.List.{list_any};
ghost use Rattle.hp_core.specs.Asks.{asker};
ghost use Rattle.hp_core.specs.Conditions.{HasSpare, MayStep};
ghost use Rattle.hp_core.specs.Core.{IsStepped, due_of, holds_ask, is_foreign, is_idle};
ghost use Rattle.hp_core.specs.Judging.{IsSteppedBy, ask_judged, held_judged, judged_at, poll_judged};
ghost use Rattle.hp_core.specs.Laws.{IsByJudge};
ghost use Rattle.hp_core.specs.Moves.{IsCoreMove, IsStart, acks_of, times_at, times_of};
ghost use Rattle.hp_core.specs.Outs.{IsOut};
ghost use Rattle.hp_core.specs.Stepping.{came, caught_in, lowest_held, polled_in, served, stepped};

use crate::asked::Asked;
use crate::event::CoreEvent;
use crate::mapped::go_on;
use crate::out::Out;
use crate::phase::{Next, Phase};
use crate::polling::{is_open_for, poll};
use crate::starting::{is_unarmed, start};
use crate::times::Times;
use hp_base::{Caught, Judge};
use hp_segs::{Growth, Segs};
use std::marker::Model;

/// The coordinator of growths, of which participant 0 has one. It grants or cancels each growth and sees memory go back,
/// one ask at a time, and holds at most one further ask of each participant. After handle_request, handle_sync_response and
/// handle_rollback_response of malloc_mp.c (the chapter Environment Abstraction Layer, dynamic memory mode); the order of
/// asks is own.
#[derive(Drop)]
pub struct Coordinator {
    deadline: u64,
    phase: Phase,
    held: [Option<Asked>; 16],
}

impl Model for Coordinator {
    ghost use Rattle.hp_core.specs.Core.{Core};

    ghost Value = { Core };

    ghost use Rattle.hp_core.specs.Conditions.{AreHeld};

    ghost view = { λ c. record { deadline = c.deadline; phase = c.phase; held = c.held } };

    ghost invariant = { λ c. AreHeld c.held };
}

fn is_idle(phase: &Phase) -> bool
    ensures { result ≡ is_idle phase.now }
{
    match phase {
        Phase::Idle => true,
        Phase::Mapping { .. } | Phase::Waiting { .. } => false,
    }
}

// Whether an ask is held.
fn holds_some(held: &[Option<Asked>; 16]) -> bool
    ensures { result ≡ list_any is_some held.now }
{
    held.iter().any(|held| held.is_some())
}

// The lowest participant for which an ask is held.
fn lowest_held(held: &[Option<Asked>; 16]) -> Option<usize>
    ensures { result ≡ lowest_held held.now }
{
    held.iter().position(|held| held.is_some())
}

// Whether the open growth is one that the coordinator did not open.
fn is_foreign(phase: &Phase, growth: Option<&Growth>) -> bool
    ensures { result ≡ is_foreign phase.now (option_copied growth.entry) }
{
    match phase {
        Phase::Idle => growth.is_some(),
        Phase::Mapping { round } | Phase::Waiting { round, .. } => {
            growth.is_some() && !is_open_for(round, growth)
        }
    }
}

impl Coordinator {
    /// A coordinator whose rounds wait for `deadline` milliseconds, with nothing under way and no ask held. After
    /// MP_TIMEOUT_S of malloc_mp.c; that the deadline is set is own.
    pub fn new(deadline: u64) -> Coordinator
        ensures { result ≡ record { deadline = deadline; phase = Phase.Idle; held = replicate 16 None } }
    {
        Coordinator {
            deadline,
            phase: Phase::Idle,
            held: [None; 16],
        }
    }

    /// Whether neither a growth nor a round is under way, and an ask is held. A Poll then starts it. While participant 0
    /// catches up for a round, that round is under way. Own.
    pub fn holds_ask(&self) -> bool
        ensures { result ≡ holds_ask self.now }
    {
        is_idle(&self.phase) && holds_some(&self.held)
    }

    /// The reading at which the deadline of the round under way passes: that at its first SYNC and the deadline, or the
    /// greatest number where that is more. It is `None` exactly where no round is under way: before the first SYNC, while
    /// participant 0 itself catches up, there is none. Own.
    pub fn due(&self) -> Option<u64>
        ensures { result ≡ due_of self.now.deadline self.now.phase }
    {
        match self.phase {
            Phase::Waiting { since, .. } => Some(since.saturating_add(self.deadline)),
            Phase::Idle | Phase::Mapping { .. } => None,
        }
    }

    /// Takes one event: what becomes of the segment value and of the coordinator, and what participant 0 has to do. It
    /// takes no memory. After handle_request, handle_sync_response and handle_rollback_response of malloc_mp.c.
    pub fn step<J: Judge>(&mut self, segs: &mut Segs, event: CoreEvent, judge: &J) -> Out
        requires may { MayStep event segs.old }
        requires may_ask { J.may_ask judge.now }

        // It is the step for some answer that the judge may give of what it is asked.
        ensures step { IsSteppedBy (J.denies judge.now) (judged_at event self.old segs.old) self.new segs.new result
            (λ denial. stepped denial event self.old segs.old) }

        // It is a move by calls of the segment value under their conditions.
        ensures moves { IsCoreMove (times_of self.old.deadline self.old.phase event) (acks_of event)
            segs.old segs.new }

        // Why the answer is given.
        ensures answers { IsOut event self.old segs.old
            (record { core = self.new; segs = segs.new; out = result }) }

        // Each ask that it denies, and the growth that it opens, is denied or allowed by the judge.
        ensures judged { IsByJudge (J.denies judge.now) event self.old segs.old segs.new }
    {
        // That the value is sound is handed out with its records.
        let _records = segs.records();
        self.take(segs, event, judge)
    }

    // Takes one event.
    fn take<J: Judge>(&mut self, segs: &mut Segs, event: CoreEvent, judge: &J) -> Out
        requires may { MayStep event segs.old }
        requires may_ask { J.may_ask judge.now }
        ensures step { IsSteppedBy (J.denies judge.now) (judged_at event self.old segs.old) self.new segs.new result
            (λ denial. stepped denial event self.old segs.old) }
        ensures moves { IsCoreMove (times_of self.old.deadline self.old.phase event) (acks_of event)
            segs.old segs.new }
    {
        match event {
            CoreEvent::Grow { ask } => self.come(segs, &Asked::Grow { ask }, judge),
            CoreEvent::Shrink { from, number } => {
                self.come(segs, &Asked::Shrink { from, number }, judge)
            }
            CoreEvent::SelfMapped { caught, now } => self.catch(segs, &caught, now),
            CoreEvent::Poll { now, acks } => self.poll(segs, now, &acks, judge),
        }
    }

    // The coordinator goes on.
    fn advance(&mut self, next: Next) -> Out
        ensures core { self.new ≡ record self.old { phase = next.phase } }
        ensures out { result ≡ next.out }
    {
        self.phase = next.phase;
        next.out
    }

    // An ask comes.
    fn come<J: Judge>(&mut self, segs: &mut Segs, asked: &Asked, judge: &J) -> Out
        requires participant { asker asked.now < 16 }
        requires spare { HasSpare segs.old }
        requires may_ask { J.may_ask judge.now }
        ensures step { IsSteppedBy (J.denies judge.now) (ask_judged asked.now self.old segs.old) self.new segs.new result
            (λ denial. came denial asked.now self.old segs.old) }
        ensures moves { IsStart segs.old segs.new }
    {
        if is_foreign(&self.phase, segs.growth()) {
            return Out::Nothing;
        }
        if is_idle(&self.phase) {
            let next = start(segs, asked, judge);
            return self.advance(next);
        }
        if !is_unarmed(segs, asked) {
            self.held[asked.from() as usize] = Some(*asked);
        }
        Out::Nothing
    }

    // The held ask of the lowest participant is started.
    fn serve<J: Judge>(&mut self, segs: &mut Segs, judge: &J) -> Out
        requires spare { HasSpare segs.old }
        requires may_ask { J.may_ask judge.now }
        ensures step { IsSteppedBy (J.denies judge.now) (held_judged self.old segs.old (lowest_held self.old.held))
            self.new segs.new result (λ denial. served denial self.old segs.old (lowest_held self.old.held)) }
        ensures moves { IsStart segs.old segs.new }
    {
        let Some(place) = lowest_held(&self.held) else {
            return Out::Nothing;
        };
        let Some(asked) = self.held[place] else {
            return Out::Nothing;
        };
        self.held[place] = None;
        self.come(segs, &asked, judge)
    }

    // Participant 0 has caught up, or has failed to.
    fn catch(&mut self, segs: &mut Segs, caught: &Caught, now: u64) -> Out
        requires spare { HasSpare segs.old }
        ensures step { IsStepped self.new segs.new result (caught_in self.old segs.old caught.now now self.old.phase) }
        ensures moves { IsCoreMove (times_at self.old.deadline self.old.phase now) [] segs.old segs.new }
    {
        let Phase::Mapping { round } = self.phase else {
            return Out::Nothing;
        };
        let times = Times {
            deadline: self.deadline,
            since: now,
            present: now,
        };
        let next = go_on(segs, &round, caught, times);
        self.advance(next)
    }

    // A poll.
    fn poll<J: Judge>(&mut self, segs: &mut Segs, now: u64, acks: &[u64; 16], judge: &J) -> Out
        requires spare { HasSpare segs.old }
        requires may_ask { J.may_ask judge.now }
        ensures step { IsSteppedBy (J.denies judge.now) (poll_judged self.old segs.old self.old.phase) self.new segs.new result
            (λ denial. polled_in denial self.old segs.old now acks.now self.old.phase) }
        ensures moves { IsCoreMove (times_at self.old.deadline self.old.phase now) acks.now segs.old segs.new }
    {
        match self.phase {
            Phase::Idle => self.serve(segs, judge),
            Phase::Mapping { .. } => Out::Nothing,
            Phase::Waiting { round, since } => {
                let times = Times {
                    deadline: self.deadline,
                    since,
                    present: now,
                };
                let next = poll(segs, &round, times, acks);
                self.advance(next)
            }
        }
    }
}
