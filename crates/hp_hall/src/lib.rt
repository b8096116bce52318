//! The hall: what a participant does to the values that all share, to mailboxes and to its clock, as one trait.
#![tactic(auto)]

mod busy;
mod hall;
mod kept;
mod laws;
mod note;
mod slot;
mod waiting;

pub use busy::Busy;
pub use hall::Hall;
pub use hp_mail::Posted;
pub use kept::Kept;
pub use laws::{arming_law, holding_law, pending_law, settled_law, standing_law};
pub use note::Note;
pub use slot::{NAMES_SLOT, SLOTS, Slot};
pub use waiting::Waiting;
