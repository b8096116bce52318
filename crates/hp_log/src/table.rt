//! The table of rows that records leave.
ghost use Rattle.std.specs.Prelude.{◌≡◌, ◌+◌, ◌*◌, ◌^◌, ◌<◌, ◌≤◌, ◌++◌, OnErr, OnOk, length};
ghost use Rattle.std.specs.List.{All};
ghost use Rattle.hp_log.specs.Log.{run_in, table_after, table_at};
ghost use Rattle.hp_log.specs.Rows.{rows_of, IsSmallRun};

use crate::log_record::LogRecord;
use crate::rows::{contains, row_of};
use hp_base::{Row, Run};
use std::alloc::{AllocError, Global};

/// Adds the table that the first `n` records leave to `out`. Where memory runs out, `out` is as before. Own.
pub fn table_at(
    alloc: Global,
    records: &[LogRecord],
    n: u64,
    out: &mut Vec<Row>,
) -> Result<(), AllocError>
    requires within { n ≤ length records.now }
    requires small { All (λ entry. IsSmallRun (run_in entry)) records.now }
    ensures ok { OnOk result (out.new.items ≡ out.old.items ++ table_at records.now n) }
    ensures err { OnErr result (out.new.items ≡ out.old.items) }
{
    let mut rows = Vec::new(alloc);
    let first = &records[..n as usize];
    for (place, entry) in first.iter().enumerate() {
        take_in(&mut rows, place as u64 + 1, entry)?;
    }
    out.extend_from_slice(rows.as_slice())
}

// The table takes in a record of that generation.
fn take_in(rows: &mut Vec<Row>, generation: u64, entry: &LogRecord) -> Result<(), AllocError>
    requires slots { (run_in entry.now).first + (run_in entry.now).count < 2 ^ 32 }
    requires addr { (run_in entry.now).addr + (run_in entry.now).count * (run_in entry.now).page < 2 ^ 64 }
    ensures ok { OnOk result (rows.new.items ≡ table_after rows.old.items generation entry.now) }
{
    match entry {
        LogRecord::Add { run, .. } => push_rows(rows, generation, run),
        LogRecord::Drop { run } => {
            rows.retain(|row: &Row| !contains(run, row));
            Ok(())
        }
    }
}

#[tactic(auto, using(crate::proofs::RowLemmas::slot_addr_fits, crate::proofs::RowLemmas::rows_below_more))]
fn push_rows(rows: &mut Vec<Row>, generation: u64, run: &Run) -> Result<(), AllocError>
    requires slots { run.now.first + run.now.count < 2 ^ 32 }
    requires addr { run.now.addr + run.now.count * run.now.page < 2 ^ 64 }
    ensures ok { OnOk result (rows.new.items ≡ rows.old.items ++ rows_of run.now generation) }
{
    for n in 0..run.count {
        rows.push(row_of(run, generation, n))?;
    }
    Ok(())
}
