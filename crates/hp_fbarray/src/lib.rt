//! Used masks: which places of a fixed number are used, with a search for runs of clear ones.
#![tactic(auto)]

mod free_run;
mod mask;
mod places;
mod runs;
mod word;

pub use free_run::FreeRun;
pub use mask::{MAX_PLACES, Mask};
