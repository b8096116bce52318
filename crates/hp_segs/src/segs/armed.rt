//! Asks that participants are armed with, and asks that are taken back.
ghost use Rattle.std.specs.Prelude.{◌≡◌, ◌<◌, None, Some, OnErr, OnOk};
ghost use Rattle.hp_segs.specs.Calls.{MayArm, MayWithdraw};
ghost use Rattle.hp_segs.specs.LaterSteps.{after_arm, after_withdraw, armed_ask, closing_by, closing_of, own_run, run_for, withdrawn_growth};
ghost use Rattle.hp_segs.specs.SegsView.{grant_or_refusal_of};

use crate::ask::Ask;
use crate::fault::Closing;
use crate::growth::Growth;
use crate::outcome::{AskLog, Cause, Outcome};
use crate::segs::{PARTICIPANTS, Segs};
use hp_base::Run;
use std::alloc::AllocError;

// What a grant or refusal that stands answers to an ask that is taken back.
fn closing(outcome: Option<Outcome>) -> Closing
    ensures { result ≡ closing_by outcome }
{
    match outcome {
        Some(Outcome::Granted { .. }) => Closing::Granted,
        Some(Outcome::Refused { cause }) => Closing::Refused { cause },
        _ => Closing::Withdrawn,
    }
}

// The run of the open growth, where it is of that ask.
fn run_for(growth: &Option<Growth>, from: u8, number: u64) -> Option<Run>
    ensures { result ≡ run_for from number growth.now }
{
    match growth {
        Some(growth) => own_run(growth, from, number),
        None => None,
    }
}

// The run of a growth, where it is of that ask.
fn own_run(growth: &Growth, from: u8, number: u64) -> Option<Run>
    ensures { result ≡ own_run from number growth.now }
{
    if growth.ask.from == from && growth.ask.number == number {
        Some(growth.run)
    } else {
        None
    }
}

impl Segs {
    /// The ask of the participant's last `arm`. It is `None` exactly where there was none. Own.
    pub fn armed(&self, from: u8) -> Option<Ask>
        requires participant { from < 16 }
        ensures { result ≡ armed_ask self.now from }
    {
        self.parts.armed[from as usize]
    }

    /// Arms the ask's participant with it and with no other: two places are set aside, by which it can take the ask
    /// back without memory, and which are no spare. Own.
    pub fn arm(&mut self, ask: &Ask) -> Result<(), AllocError>
        requires may { MayArm ask.now self.old }
        ensures ok { OnOk result (self.new ≡ after_arm ask.now self.old) }
        ensures err { OnErr result (self.new ≡ self.old) }
    {
        let parts = &mut *self.parts;
        let Some(places) = parts.spare.checked_add(2 * PARTICIPANTS) else {
            return Err(AllocError);
        };
        parts.table.reserve(places)?;
        parts.asks.reserve(places)?;
        parts.armed[ask.from as usize] = Some(*ask);
        Ok(())
    }

    /// Takes an armed ask back, by the places that are set aside for it. Where it was granted or refused, that stands.
    /// Otherwise it is refused as Withdrawn, by the readings of the clock when it was sent and now, and a growth that is
    /// open for it is cancelled. Own.
    pub fn withdraw(&mut self, from: u8, number: u64, since: u64, now: u64) -> Closing
        requires may { MayWithdraw from number self.old }
        ensures answer { result ≡ closing_of self.old from number }
        ensures step { self.new ≡ after_withdraw from number since now self.old }
    {
        let standing = self.parts.asks.grant_or_refusal(from, number);
        if standing.is_none() {
            self.refuse_withdrawn(from, number, since, now);
        }
        closing(standing)
    }

    // Refuses an armed ask that has neither a grant nor a refusal.
    fn refuse_withdrawn(&mut self, from: u8, number: u64, since: u64, now: u64)
        requires may { MayWithdraw from number self.old }
        requires unanswered { grant_or_refusal_of self.old.asks from number ≡ None }
        ensures step { self.new
            ≡ withdrawn_growth from number (Cause.Withdrawn since now) self.old self.old.growth }
    {
        match run_for(&self.parts.growth, from, number) {
            Some(run) => self.undo_growth(from, number, &run, since, now),
            None => self.log_withdrawn(from, number, since, now),
        }
    }

    // The ask has an open growth, which is cancelled.
    fn undo_growth(&mut self, from: u8, number: u64, run: &Run, since: u64, now: u64)
        requires may { MayWithdraw from number self.old }
        requires unanswered { grant_or_refusal_of self.old.asks from number ≡ None }
        requires run { run_for from number self.old.growth ≡ Some run.now }
        ensures step { self.new
            ≡ withdrawn_growth from number (Cause.Withdrawn since now) self.old self.old.growth }
    {
        let parts = &mut *self.parts;
        // The Drop is not counted.
        let at = parts.table.records().len() as u64;
        parts.table.remove(run);
        parts.asks.push(AskLog {
            from,
            number,
            outcome: Outcome::Refused {
                cause: Cause::Withdrawn {
                    from: since,
                    to: now,
                },
            },
            at,
            ask: parts.armed[from as usize],
        });
        parts.growth = None;
    }

    // The ask has no open growth.
    fn log_withdrawn(&mut self, from: u8, number: u64, since: u64, now: u64)
        requires may { MayWithdraw from number self.old }
        requires unanswered { grant_or_refusal_of self.old.asks from number ≡ None }
        requires none { run_for from number self.old.growth ≡ None }
        ensures step { self.new
            ≡ withdrawn_growth from number (Cause.Withdrawn since now) self.old self.old.growth }
    {
        let parts = &mut *self.parts;
        let at = parts.table.records().len() as u64;
        parts.asks.push(AskLog {
            from,
            number,
            outcome: Outcome::Refused {
                cause: Cause::Withdrawn {
                    from: since,
                    to: now,
                },
            },
            at,
            ask: parts.armed[from as usize],
        });
    }
}
