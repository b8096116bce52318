//! The report of a run: its bytes, part by part, made line by line and written to a sink as they are made.
#![tactic(auto)]

mod answer_lines;
mod ask_lines;
mod element_lines;
mod ended;
mod entry_lines;
mod event_lines;
mod events;
mod heap_part;
mod heaps;
mod hex;
mod lines;
mod list_lines;
mod names;
mod numbers;
mod page;
mod pool_lines;
mod record_lines;
mod render_fault;
mod rendering;
mod room;
mod row_lines;
mod segment_lines;
mod segments;
mod tables;
mod writing;
mod zone_lines;

pub use ended::Ended;
pub use render_fault::RenderFault;
pub use rendering::render;
pub use writing::{WriteFault, write_whole};
