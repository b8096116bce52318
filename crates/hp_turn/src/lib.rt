//! The locks of the board's slots: a try, a wait, and a give.
#![tactic(auto)]

mod locks;

pub use hp_hall::{Busy, Kept, Slot};
pub use locks::{give, take, try_take};
