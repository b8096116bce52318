//! What small programs share: the numbers among their words, a source read to its end, and a text written whole.
#![tactic(auto)]

mod numbers;
mod reading;
mod values;
mod writing;

pub use reading::{LIMIT, ReadFault, read_whole};
pub use values::{count, dashes_at, number};
pub use writing::{WriteFault, write_whole};
