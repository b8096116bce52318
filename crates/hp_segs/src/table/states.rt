//! Rows that change their state.
ghost use Rattle.std.specs.Prelude.{◌≡◌, ◌+◌, ◌-◌, ◌*◌, ◌^◌, ◌<◌, ◌≤◌, map, slice_index, slice_set};
ghost use Rattle.hp_segs.specs.Lists.{lists_of};
ghost use Rattle.hp_segs.specs.Steps.{agreed_segment, claimed_segment, retired_segment};
ghost use Rattle.hp_segs.specs.TableCalls.{IsCountedRun, IsGrantRun, IsOpenRun};

use crate::row_state::RowState;
use crate::table::Table;
use crate::table::changes::change_slots;
use hp_base::Run;

// The bytes of a run count for its socket.
fn count_run(totals: &mut [u64; 32], run: &Run)
    requires socket { run.now.socket < 32 }
    requires fits { slice_index totals.old run.now.socket + run.now.count * run.now.page < 2 ^ 64 }
    ensures { totals.new ≡ slice_set totals.old run.now.socket
        (slice_index totals.old run.now.socket + run.now.count * run.now.page) }
{
    totals[run.socket as usize] += u64::from(run.count) * run.page;
}

// The rows of a run count in their socket's total no longer.
fn uncount_run(totals: &mut [u64; 32], run: &Run)
    requires socket { run.now.socket < 32 }
    requires counted { run.now.count * run.now.page ≤ slice_index totals.old run.now.socket }
    requires fits { slice_index totals.old run.now.socket < 2 ^ 64 }
    ensures { totals.new ≡ slice_set totals.old run.now.socket
        (slice_index totals.old run.now.socket - run.now.count * run.now.page) }
{
    totals[run.socket as usize] -= u64::from(run.count) * run.page;
}

impl Table {
    // The rows of a generation, which are those of a run, become Agreed for a heap.
    pub(crate) fn agree(&mut self, run: &Run, generation: u64, heap: u32)
        requires growth { IsOpenRun (lists_of self.old.pools) self.old.segments run.now generation }
        ensures { self.new ≡ record self.old {
          segments = map (agreed_segment generation heap) self.old.segments;
        } }
    {
        count_run(&mut self.totals, run);
        change_slots(&mut self.kept, run, RowState::Agreed { heap });
    }

    // The rows of a generation, which are those of a run and Agreed for a heap, become Owned.
    pub(crate) fn claim(&mut self, run: &Run, generation: u64, heap: u32)
        requires granted { IsGrantRun (lists_of self.old.pools) self.old.segments run.now generation heap }
        ensures { self.new ≡ record self.old {
          segments = map (claimed_segment generation) self.old.segments;
        } }
    {
        change_slots(&mut self.kept, run, RowState::Owned { heap });
    }

    // The rows at the run's slots become Retiring.
    pub(crate) fn retire(&mut self, run: &Run)
        requires counted { IsCountedRun (lists_of self.old.pools) self.old.segments run.now }
        ensures { self.new ≡ record self.old {
          segments = map (retired_segment run.now) self.old.segments;
        } }
    {
        uncount_run(&mut self.totals, run);
        change_slots(&mut self.kept, run, RowState::Retiring);
    }
}
