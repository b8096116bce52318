//! Memory that a heap takes, and memory that it gives up.
ghost use Rattle.std.specs.Prelude.{◌≡◌, ◌<◌, ◌≤◌, Some, length, insert, vec_capacity, vec_len};
ghost use Rattle.hp_base.specs.declared.row.Run.{Run};
ghost use Rattle.std.specs.List.Sorted.{IsNonDecreasingBy};
ghost use Rattle.std.specs.Option.{option_and_then};
ghost use Rattle.hp_segs.specs.SegsView.{added_run, granted_by};
ghost use Rattle.hp_segs.specs.Calls.{IsUnclaimedGrant, OwnsRun};
ghost use Rattle.hp_segs.specs.TableCalls.{added_heap};
ghost use Rattle.hp_segs.specs.Steps.{after_claim, after_retire, claimed_run, insert_by_address};

use crate::outcome::Outcome;
use crate::segs::Segs;
use hp_base::Run;
use hp_log::LogRecord;

// How many of the runs stand before a run of that address.
fn runs_before(runs: &[Run], addr: u64) -> usize
    requires rising { IsNonDecreasingBy (λ run. run.addr) runs.now }
    ensures place { (run : Run) → run.addr ≡ addr
        → insert_by_address run runs.now ≡ insert runs.now result run }
    ensures within { result ≤ length runs.now }
{
    runs.partition_point(|run| run.addr <= addr)
}

// The run comes among the others by rising address.
fn insert_run(runs: &mut Vec<Run>, run: &Run)
    requires room { vec_len runs.old < vec_capacity runs.old }
    requires rising { IsNonDecreasingBy (λ run. run.addr) runs.old.items }
    ensures runs { runs.new.items ≡ insert_by_address run.now runs.old.items }
    ensures room { vec_capacity runs.old ≤ vec_capacity runs.new }
{
    let place = runs_before(runs.as_slice(), run.addr);
    let _ = runs.insert(place, *run);
}

// The generation of a grant.
fn granted_by(outcome: Option<Outcome>) -> Option<u64>
    ensures { result ≡ option_and_then granted_by outcome }
{
    match outcome {
        Some(Outcome::Granted { generation }) => Some(generation),
        _ => None,
    }
}

// The run that a record adds.
fn added_run(entry: &LogRecord) -> Option<Run>
    ensures { result ≡ added_run entry.now }
{
    match entry {
        LogRecord::Add { run, .. } => Some(*run),
        LogRecord::Drop { .. } => None,
    }
}

// The heap that a record adds its run for, and 0 where it adds none.
fn added_heap(entry: &LogRecord) -> u32
    ensures { result ≡ added_heap entry.now }
{
    match entry {
        LogRecord::Add { heap, .. } => *heap,
        LogRecord::Drop { .. } => 0,
    }
}

impl Segs {
    /// The heap of a granted ask takes the rows of the grant: they become Owned. The answer is their run. Own.
    pub fn claim(&mut self, from: u8, number: u64) -> Run
        requires granted { IsUnclaimedGrant from number self.old }
        ensures run { Some result ≡ claimed_run from number self.old }
        ensures step { self.new ≡ after_claim from number self.old }
    {
        let parts = &mut *self.parts;
        let Some(generation) = granted_by(parts.asks.grant_or_refusal(from, number)) else {
            unreachable!()
        };
        let place = generation as usize - 1;
        let entry = parts.table.records()[place];
        let Some(run) = added_run(&entry) else {
            unreachable!()
        };
        parts.table.claim(&run, generation, added_heap(&entry));
        run
    }

    /// A heap gives up a run of its rows: they become Retiring. After malloc_heap_free_pages of malloc_heap.c; that they wait as Retiring
    /// is own.
    pub fn retire(&mut self, heap: u32, run: &Run)
        requires owned { OwnsRun heap run.now self.old }
        ensures step { self.new ≡ after_retire heap run.now self.old }
    {
        let parts = &mut *self.parts;
        parts.table.retire(run);
        insert_run(&mut parts.retiring, run);
        parts.retired = parts.retired.with(heap, run);
    }

    /// The number of Retiring runs. Own.
    pub fn retiring(&self) -> usize
        ensures { result ≡ length self.now.retiring }
    {
        self.parts.retiring.len()
    }
}
