//! A growth, from its record to its end.
ghost use Rattle.std.specs.Prelude.{◌≡◌, ◌<◌, ◌≤◌, length};
ghost use Rattle.std.specs.Result.{result_err};
ghost use Rattle.hp_segs.specs.Calls.{MayAgree, MayCancel, MayOpen};
ghost use Rattle.hp_segs.specs.Steps.{after_agree, after_cancel, after_open, lowest_below};

use crate::ask::Ask;
use crate::fault::NotAll;
use crate::growth::Growth;
use crate::outcome::{AskLog, Cause, Outcome};
use crate::segs::Segs;
use crate::segs::roster::lowest_member_below;
use hp_base::Run;

impl Segs {
    /// Opens the growth of an ask by its planned run, and gives the generation of its record. The rows are Opened, and
    /// the pages leave the pool. After alloc_pages_on_heap of rte_malloc.
    pub fn open_run(&mut self, ask: &Ask, run: &Run) -> u64
        requires may { MayOpen ask.now run.now self.old }
        ensures generation { result ≡ length self.new.log }
        ensures step { self.new ≡ after_open ask.now run.now self.old }
    {
        let parts = &mut *self.parts;
        parts.table.add(run, ask.heap);
        let generation = parts.table.records().len() as u64;
        parts.growth = Some(Growth {
            generation,
            ask: *ask,
            run: *run,
            noted: None,
        });
        parts.spare -= 1;
        generation
    }

    /// Grants the open growth where each member of the roster has acknowledged its record: `acks` are the numbers of
    /// the participants 0 to 15. Otherwise nothing changes, and the answer names the lowest member that has not. Own.
    pub fn agree(&mut self, acks: &[u64; 16]) -> Result<(), NotAll>
        requires may { MayAgree self.old }
        ensures answer { result_err result ≡ lowest_below self.old acks.now }
        ensures step { self.new ≡ after_agree acks.now self.old }
    {
        let parts = &mut *self.parts;
        let Some(growth) = &parts.growth else {
            unreachable!()
        };
        if let Some(member) = lowest_member_below(&parts.roster, acks, growth.generation) {
            return Err(member);
        }
        let ask = growth.ask;
        let run = growth.run;
        let generation = growth.generation;
        parts.table.agree(&run, generation, ask.heap);
        parts.asks.push(AskLog {
            from: ask.from,
            number: ask.number,
            outcome: Outcome::Granted { generation },
            at: parts.table.records().len() as u64,
            ask: Some(ask),
        });
        parts.growth = None;
        parts.spare -= 1;
        Ok(())
    }

    /// Refuses the open growth by a cause: the noted failure, and where none is noted a Late member of the roster. Its
    /// slots and pages are free again, the log has its Add and its Drop, and all else stays. After
    /// rollback_expand_heap of rte_malloc.
    pub fn cancel(&mut self, cause: Cause)
        requires may { MayCancel cause self.old }
        ensures step { self.new ≡ after_cancel cause self.old }
    {
        let parts = &mut *self.parts;
        let Some(growth) = &parts.growth else {
            unreachable!()
        };
        let ask = growth.ask;
        let run = growth.run;
        parts.table.remove(&run);
        // The Drop is not counted.
        let at = parts.table.records().len() as u64 - 1;
        parts.asks.push(AskLog {
            from: ask.from,
            number: ask.number,
            outcome: Outcome::Refused { cause },
            at,
            ask: Some(ask),
        });
        parts.growth = None;
        parts.spare -= 2;
    }
}
