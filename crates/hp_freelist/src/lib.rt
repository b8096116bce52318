//! A heap's thirteen free lists, one for each size class, linked by the keys of the elements.
#![tactic(auto)]

mod greatest;
mod heads;
mod laws;
mod link;
mod linked;
mod lists;
mod search;

pub use laws::search_law;
pub use lists::Lists;
