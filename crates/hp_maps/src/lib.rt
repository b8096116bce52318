//! A participant's table: what one process has mapped, over a mapper that may refuse a row or misplace it.
#![tactic(auto)]

mod catching;
mod chunks;
mod last_drops;
mod laws;
mod local_maps;
mod mapping;
mod new_rows;
mod planned;
mod row_list;
mod rows;
mod table;
mod telling;

pub use laws::{
    apart_law, bytes_law, failed_growth_law, few_events_law, known_law, planned_law, ready_law,
    slot_law, stays_mapped_law, stretch_law, table_law,
};
pub use local_maps::LocalMaps;
pub use planned::Planned;
pub use table::Table;
