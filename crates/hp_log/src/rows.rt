//! The rows of a run.
ghost use Rattle.std.specs.Prelude.{◌≡◌, ◌+◌, ◌*◌, ◌<◌, ◌^◌};
ghost use Rattle.hp_log.specs.Rows.{in_run, row_of};

use hp_base::{Row, Run};

/// Whether the row is at a slot of the run. Own.
pub fn contains(run: &Run, row: &Row) -> bool
    ensures { result ≡ in_run run.now row.now }
{
    row.list == run.list && run.first <= row.slot && row.slot - run.first < run.count
}

/// The row of the run's slot at place `n`, mapped by the record of that generation. Own.
pub fn row_of(run: &Run, generation: u64, n: u32) -> Row
    requires slot { run.now.first + n < 2 ^ 32 }
    requires addr { run.now.addr + n * run.now.page < 2 ^ 64 }
    ensures { result ≡ row_of run.now generation n }
{
    Row {
        addr: run.addr + u64::from(n) * run.page,
        page: run.page,
        socket: run.socket,
        list: run.list,
        slot: run.first + n,
        generation,
    }
}
