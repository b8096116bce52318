//! A hall of plain values, in one thread.
#![tactic(auto)]

mod laws;
mod mail_log;
mod mailbox;
mod own_part;
mod pairs;
mod plain_hall;
mod slot_state;

pub use laws::course_law;
pub use mailbox::MAILBOX_FRAMES;
pub use plain_hall::{HallParts, PlainHall};
