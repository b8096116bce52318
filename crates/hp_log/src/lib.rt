//! The log of what was mapped and unmapped: records, the rows of a run, and the table of rows that records leave.
#![tactic(auto)]

mod log_record;
mod rows;
mod table;

pub use log_record::LogRecord;
pub use rows::{contains, row_of};
pub use table::table_at;
