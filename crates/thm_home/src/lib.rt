//! That what threads promise and a board hands out is an end of a workload: definitions, lemmas and a law, and no code.
#![tactic(auto)]

mod laws;

pub use laws::{handed_end_law, home_law};
