//! Outcomes that are logged without a growth, and what was logged.
ghost use Rattle.std.specs.Prelude.{◌≡◌, ◌<◌, IfSome, true};
ghost use Rattle.hp_segs.specs.Calls.{MayClose, MayLogFreed, MayLogStale};
ghost use Rattle.hp_segs.specs.SegsView.{closed_number, grant_or_refusal_of, is_grant_or_refusal, outcome_of};
ghost use Rattle.hp_segs.specs.Steps.{after_close, after_freed};
ghost use Rattle.hp_segs.specs.LaterSteps.{after_stale};

use crate::ask::Ask;
use crate::outcome::{AskLog, Cause, Outcome};
use crate::segs::Segs;

impl Segs {
    /// Refuses an ask without a growth: by the cause for which no run is planned, or by a denial of the planned run. Own.
    pub fn close_ask(&mut self, ask: &Ask, cause: Cause)
        requires may { MayClose ask.now cause self.old }
        ensures step { self.new ≡ after_close ask.now cause self.old }
    {
        let parts = &mut *self.parts;
        let at = parts.table.records().len() as u64;
        parts.asks.push(AskLog {
            from: ask.from,
            number: ask.number,
            outcome: Outcome::Refused { cause },
            at,
            ask: Some(*ask),
        });
        parts.spare -= 1;
    }

    /// Logs an ask that is closed as Stale, beside the participant's closed number. Own.
    pub fn log_stale(&mut self, from: u8, number: u64)
        requires may { MayLogStale from number self.old }
        ensures step { self.new ≡ after_stale from number self.old }
    {
        let parts = &mut *self.parts;
        let at = parts.table.records().len() as u64;
        let done = parts.asks.closed(from);
        parts.asks.push(AskLog {
            from,
            number,
            outcome: Outcome::Stale { done },
            at,
            ask: None,
        });
        parts.spare -= 1;
    }

    /// Answers a notice that memory may go back: it is closed at the present generation. Own.
    pub fn log_freed(&mut self, from: u8, number: u64)
        requires may { MayLogFreed from number self.old }
        ensures step { self.new ≡ after_freed from number self.old }
    {
        let parts = &mut *self.parts;
        let generation = parts.table.records().len() as u64;
        parts.asks.push(AskLog {
            from,
            number,
            outcome: Outcome::Freed { generation },
            at: generation,
            ask: None,
        });
        parts.spare -= 1;
    }

    /// The first outcome other than Stale that is logged for an ask. It is `None` exactly where there is none. Own.
    pub fn outcome(&self, from: u8, number: u64) -> Option<Outcome>
        ensures { result ≡ outcome_of self.now.asks from number }
    {
        self.parts.asks.outcome(from, number)
    }

    /// The first grant or refusal that is logged for an ask. It is `None` exactly where there is none. Own.
    pub fn grant_or_refusal(&self, from: u8, number: u64) -> Option<Outcome>
        ensures first { result ≡ grant_or_refusal_of self.now.asks from number }
        ensures settles { IfSome result (λ outcome. is_grant_or_refusal outcome ≡ true) }
    {
        self.parts.asks.grant_or_refusal(from, number)
    }

    /// The closed number of a participant: its greatest number with an outcome other than Stale, and 0 before that. Own.
    pub fn closed(&self, participant: u8) -> u64
        requires participant { participant < 16 }
        ensures { result ≡ closed_number self.now.asks participant }
    {
        self.parts.asks.closed(participant)
    }

    /// The logged outcomes, in the order in which they were logged. Own.
    pub fn asks(&self) -> &[AskLog]
        ensures { result.now ≡ self.now.asks }
    {
        self.parts.asks.entries()
    }
}
