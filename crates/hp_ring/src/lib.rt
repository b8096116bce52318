//! A named ring between participants: bulks of words go from senders to a taker, each whole and in its sender's order.
#![tactic(auto)]

mod bulk;
mod dealing;
mod exchange;
mod fault;
mod full;
mod gathering;
mod judging;
mod lines;
mod ring;
mod roles;
mod send_pass;
mod sending;
mod steps;
mod take_pass;
mod taking;
mod top_call;
mod view;
mod waiting;
mod weaving;

pub use bulk::{Bulk, MAX_WORDS};
pub use fault::RingFault;
pub use full::Full;
pub use judging::{MAX_SENDERS, MAX_SLOTS};
pub use ring::Ring;
pub use send_pass::SendPass;
pub use take_pass::TakePass;
pub use top_call::top;
pub use weaving::weave;
