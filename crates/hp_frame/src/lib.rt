//! Messages between the processes as frames: bytes, with one spelling for each message. The layout is own,
//! and docs/FORMATS.md has it.
#![tactic(auto)]

mod checking;
mod fault;
mod frame;
mod kind;
mod laws;
mod layout;
mod message;
mod numbers;
mod param;
mod reading;
mod view;
mod writing;

pub use fault::Fault;
pub use frame::Frame;
pub use laws::{frames_have_no_fault, spellings_differ};
pub use message::{Body, Message};
pub use reading::read;
pub use view::FrameView;
pub use writing::write;
