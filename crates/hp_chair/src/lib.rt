//! A hall with one seat at the board: what a participant on a thread of its own does its lines over and serves in.
#![tactic(auto)]

mod board_hall;
mod laws;
mod marks;
mod step_log;

pub use board_hall::BoardHall;
pub use laws::{came_law, empty_law, full_law};
pub use marks::Marks;
