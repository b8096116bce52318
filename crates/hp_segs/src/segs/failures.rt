//! The open growth, and failed mappings that are noted for it.
ghost use Rattle.std.specs.Prelude.{◌≡◌, option_copied};
ghost use Rattle.hp_log.specs.Rows.{IsSmallRun};
ghost use Rattle.hp_segs.specs.Calls.{MayNote};
ghost use Rattle.hp_segs.specs.LaterSteps.{after_note, is_growth_row, is_noted, noted_failure};

use crate::growth::Growth;
use crate::outcome::Cause;
use crate::segs::Segs;
use hp_base::{MapAnswer, Row};
use hp_log::{contains, row_of};

// Whether the row is one of the growth's.
fn is_growth_row(growth: &Growth, row: &Row) -> bool
    requires small { IsSmallRun growth.now.run }
    ensures { result ≡ is_growth_row growth.now row.now }
{
    let run = &growth.run;
    if row.generation != growth.generation || !contains(run, row) {
        return false;
    }
    let own = row_of(run, growth.generation, row.slot - run.first);
    row.addr == own.addr && row.page == own.page && row.socket == own.socket
}

impl Segs {
    /// The growth that is under way. Own.
    pub fn growth(&self) -> Option<&Growth>
        ensures { option_copied result ≡ self.now.growth }
    {
        self.parts.growth.as_ref()
    }

    /// The failed mapping that is noted for the open growth. Own.
    pub fn failed(&self) -> Option<Cause>
        ensures { result ≡ noted_failure self.now }
    {
        match &self.parts.growth {
            Some(growth) => growth.noted,
            None => None,
        }
    }

    /// Notes a failed mapping for the open growth: the participant's mapping call of that number, for the row, answered
    /// `got`. The answer is true exactly where it is taken: the row is the open growth's, none is noted for it yet, and
    /// no failure of the participant by this call or a later one is logged. Otherwise nothing changes. Own; in
    /// malloc_mp.c a secondary's reply says that it failed (handle_sync), and the primary rolls back.
    pub fn note_failed(&mut self, participant: u8, call: u64, row: &Row, got: MapAnswer) -> bool
        requires may { MayNote participant row.now got self.old }
        ensures taken { result ≡ is_noted self.old participant call row.now self.old.growth }
        ensures step { self.new ≡ after_note participant call row.now got self.old }
    {
        if !self.is_noted(participant, call, row) {
            return false;
        }
        let Some(growth) = &mut self.parts.growth else {
            unreachable!()
        };
        growth.noted = Some(Cause::MapFailed {
            participant,
            call,
            addr: row.addr,
            got,
        });
        true
    }

    // Whether a failed mapping is taken.
    fn is_noted(&self, participant: u8, call: u64, row: &Row) -> bool
        ensures { result ≡ is_noted self.now participant call row.now self.now.growth }
    {
        let parts = &*self.parts;
        let Some(growth) = &parts.growth else {
            return false;
        };
        // That the growth's run is small is handed out with the lists.
        let _lists = parts.table.lists();
        if !is_growth_row(growth, row) || growth.noted.is_some() {
            return false;
        }
        !parts.asks.has_failed_from(participant, call)
    }
}
