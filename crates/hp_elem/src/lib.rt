//! The elements of a heap under keys, each linked to its neighbours in address order.
#![tactic(auto)]

mod chain;
mod edits;
mod elems;
mod filing;
mod gaps;
mod laws;
mod link;
mod lowest;
mod near;
mod node;
mod search;
mod starts;
mod tags;

pub use elems::Elems;
pub use laws::split_law;
pub use node::Node;
