//! Whole runs of participants on threads, over mappers in memory.

mod casting;
pub mod clocks;
mod gates;
mod growing;
mod leaving;
mod lines;
mod many;
mod registering;
mod reports;
