//! Statistics of heaps that are read without a heap's lock: a cell for each heap, with the newest pair of a count and the statistics.
#![tactic(auto)]

mod opening;
mod reader;
mod roles;
mod stat_cell;
mod stat_cells;
mod stat_pair;
mod stat_pass;
mod stat_pen;
mod steps;
mod view;

pub use stat_cells::{StatCells, StatParts};
pub use stat_pair::StatPair;
pub use stat_pass::StatPass;
pub use stat_pen::StatPen;
