//! The coordinator of growths: what it does at each event with the segment value, and what it answers.
#![tactic(auto)]

mod answering;
mod asked;
mod coordinator;
mod event;
mod following;
mod laws;
mod mapped;
mod out;
mod phase;
mod polling;
mod starting;
mod times;

pub use asked::Asked;
pub use coordinator::Coordinator;
pub use event::CoreEvent;
pub use following::follow;
pub use laws::{core_law, giving_law, tie_law};
pub use out::Out;
pub use phase::{Phase, Round, RoundKind};
