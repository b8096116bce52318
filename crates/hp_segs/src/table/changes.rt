//! Records that come to the log, with their rows.
ghost use Rattle.std.specs.Prelude.{◌≡◌, ◌+◌, ◌-◌, ◌^◌, ◌<◌, ◌≤◌, false, [], ◌∷◌, ◌++◌, map, length, slice_index_or, slice_set, IsSomeAnd};
ghost use Rattle.std.specs.List.{All};
ghost use Rattle.hp_pool.specs.Pools.{free_pages as free_of, Takes};
ghost use Rattle.hp_segs.specs.Masks.{with_places};
ghost use Rattle.hp_log.specs.Rows.{IsUnusedRun, IsUsedRun, rows_of};
ghost use Rattle.hp_segs.specs.Lists.{lists_of};
ghost use Rattle.hp_segs.specs.SegsView.{rows_in};
ghost use Rattle.hp_segs.specs.Steps.{segment_of, without_run};
ghost use Rattle.hp_segs.specs.SoundRows.{AreHeld};
ghost use Rattle.hp_segs.specs.Slots.{HasRun, changed_slots, stamped_slots};
ghost use Rattle.hp_segs.specs.Table.{HasPages, IsListRun};
ghost use Rattle.hp_segs.specs.TableCalls.{AllCount};
ghost use Rattle.hp_segs.specs.TableLayout.{removed_all};

use crate::row_state::RowState;
use crate::table::Table;
use crate::table::list_slots::ListSlots;
use crate::table::slots::mark;
use hp_base::Run;
use hp_fbarray::Mask;
use hp_log::LogRecord;
use hp_pool::Pools;

// Pages leave the pool.
fn take_pages(counts: &mut Pools, socket: u32, page: u64, n: u64)
    requires { IsSomeAnd (free_of counts.old socket page) (λ have. n ≤ have) }
    ensures { Takes counts.old counts.new socket page n }
{
    if counts.take(socket, page, n).is_err() {
        unreachable!();
    }
}

// Places of one mask are marked.
fn mark_list(masks: &mut Vec<Mask>, list: u32, first: u32, count: u32, used: bool)
    requires list { list < length masks.old.items }
    requires within { first + count ≤ length (slice_index_or masks.old.items list []) }
    requires slots { first + count < 2 ^ 32 }
    ensures { masks.new.items ≡ slice_set masks.old.items list
        (with_places (slice_index_or masks.old.items list []) first count used) }
{
    let mask = &mut masks[list as usize];
    mark(mask, first, count, used);
}

// The rows of a generation come at a run's slots.
fn stamp_slots(kept: &mut Vec<ListSlots>, run: &Run, generation: u64)
    requires run { HasRun kept.old.items run.now }
    ensures { kept.new.items ≡ stamped_slots kept.old.items run.now generation }
{
    let list = &mut kept[run.list as usize];
    list.put_generation(run.first, run.count, generation);
}

// The rows at a run's slots take a state.
pub(crate) fn change_slots(kept: &mut Vec<ListSlots>, run: &Run, state: RowState)
    requires run { HasRun kept.old.items run.now }
    ensures { kept.new.items ≡ changed_slots kept.old.items run.now state }
{
    let list = &mut kept[run.list as usize];
    list.put_state(run.first, run.count, state);
}

impl Table {
    // Logs an Add. Its rows are Opened, and their pages are taken.
    pub(crate) fn add(&mut self, run: &Run, heap: u32)
        requires listed { IsListRun (lists_of self.old.pools) run.now }
        requires unused { IsUnusedRun (rows_in self.old.segments) run.now }
        requires pages { HasPages self.old.pools (rows_in self.old.segments) run.now }
        requires room { 0 < self.old.room }
        ensures { self.new ≡ record self.old {
          log = self.old.log ++ LogRecord.Add run.now heap ∷ [];
          segments = self.old.segments
              ++ map (segment_of RowState.Opened) (rows_of run.now (length self.old.log + 1));
          room = self.old.room - 1;
        } }
    {
        let generation = self.log.len() as u64 + 1;
        take_pages(&mut self.counts, run.socket, run.page, u64::from(run.count));
        mark_list(&mut self.masks, run.list, run.first, run.count, true);
        stamp_slots(&mut self.kept, run, generation);
        change_slots(&mut self.kept, run, RowState::Opened);
        self.log.push_reserved(LogRecord::Add { run: *run, heap });
    }

    // Logs a Drop. The rows at the run's slots go, and their pages are free.
    pub(crate) fn remove(&mut self, run: &Run)
        requires listed { IsListRun (lists_of self.old.pools) run.now }
        requires used { IsUsedRun (rows_in self.old.segments) run.now }
        requires uncounted { AllCount false run.now self.old.segments }
        requires room { 0 < self.old.room }
        ensures { self.new ≡ record self.old {
          log = self.old.log ++ LogRecord.Drop run.now ∷ [];
          segments = without_run run.now self.old.segments;
          room = self.old.room - 1;
        } }
    {
        self.counts.give(run.socket, run.page, u64::from(run.count));
        mark_list(&mut self.masks, run.list, run.first, run.count, false);
        self.log.push_reserved(LogRecord::Drop { run: *run });
    }

    // Logs a Drop of each of the runs, in their order.
    pub(crate) fn remove_all(&mut self, runs: &[Run])
        requires held { AreHeld (lists_of self.old.pools) (rows_in self.old.segments) runs.now }
        requires uncounted { All (λ run. AllCount false run self.old.segments) runs.now }
        requires room { length runs.now ≤ self.old.room }
        ensures { self.new ≡ removed_all runs.now self.old }
    {
        for run in runs {
            self.remove(run);
        }
    }
}
