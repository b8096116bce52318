//! The bytes at the addresses of a heap: the data of its elements, lent as slices; and a session over them.
#![tactic(auto)]

mod answer;
mod digits;
mod element;
mod fault;
mod form;
mod input;
mod labels;
mod line;
mod loan;
mod number;
mod part;
mod reading;
mod running;
mod sessions;
mod store;
mod top_call;
mod word;
mod zeroed;

pub use fault::{ByteFault, StoreFault};
pub use part::Part;
pub use store::Store;
pub use top_call::{session, top};
