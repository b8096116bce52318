//! Rows, and which records drop them.
ghost use Rattle.std.specs.Prelude.{◌≡◌};
ghost use Rattle.hp_base.specs.Mapping.{is_row};
ghost use Rattle.hp_maps.specs.Catching.{drops, is_dropped};
ghost use Rattle.hp_maps.specs.MapsView.{is_of_log};
ghost use Rattle.hp_maps.specs.Unmapping.{is_drop};

use hp_base::Row;
use hp_log::{LogRecord, contains};

/// Whether a row is of the log, and not of a chunk.
pub fn is_of_log(row: &Row) -> bool
    ensures { result ≡ is_of_log row.now }
{
    0 < row.generation
}

/// Whether two rows are the same, in all fields.
pub fn is_row(row: &Row, other: &Row) -> bool
    ensures { result ≡ is_row row.now other.now }
{
    other.addr == row.addr
        && other.page == row.page
        && other.socket == row.socket
        && other.list == row.list
        && other.slot == row.slot
        && other.generation == row.generation
}

/// Whether a record drops a row that stands before it.
pub fn drops(row: &Row, entry: &LogRecord) -> bool
    ensures { result ≡ drops row.now entry.now }
{
    match entry {
        LogRecord::Add { .. } => false,
        LogRecord::Drop { run } => contains(run, row),
    }
}

/// Whether one of the records drops a row.
pub fn is_dropped(records: &[LogRecord], row: &Row) -> bool
    ensures { result ≡ is_dropped records.now row.now }
{
    records.iter().any(|entry| drops(row, entry))
}

/// Whether a record is a Drop.
pub fn is_drop(entry: &LogRecord) -> bool
    ensures { result ≡ is_drop entry.now }
{
    match entry {
        LogRecord::Add { .. } => false,
        LogRecord::Drop { .. } => true,
    }
}
