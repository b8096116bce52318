//! Mailboxes that threads share: frames that wait for a participant, those of each sender in its order.
#![tactic(auto)]

mod laws;
mod letter;
mod mailbox;
mod pass;
mod posted;
mod roles;
mod view;

pub use laws::fetched_law;
pub use letter::Letter;
pub use mailbox::Mailbox;
pub use pass::Pass;
pub use posted::Posted;
