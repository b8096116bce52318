//! Segment lists, the log of segments, and growth: the one value that knows which pages are a heap's.
#![tactic(auto)]

mod ask;
mod asks;
mod external_range;
mod fault;
mod growth;
mod laws;
mod list_info;
mod log_laws;
mod outcome;
mod plan_refusal;
mod retired_log;
mod row_state;
mod segs;
mod table;

pub use ask::Ask;
pub use external_range::ExternalRange;
pub use fault::{Closing, NotAll, RangeFault};
pub use growth::Growth;
pub use hp_base::PoolLine;
pub use hp_log::LogRecord;
pub use laws::{
    claimed_law, forms_law, growths_law, moves_law, places_law, retired_law, segments_law,
    settling_law,
};
pub use list_info::ListInfo;
pub use log_laws::log_law;
pub use outcome::{AskLog, Cause, Outcome};
pub use plan_refusal::PlanRefusal;
pub use row_state::{RowState, Segment};
pub use segs::{PARTICIPANTS, Segs};
