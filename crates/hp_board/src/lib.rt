//! The board that threads share: heaps, the segment value and the names in slots with lock words, under one rule that holds between any two steps.
#![tactic(auto)]

mod acks;
mod board;
mod closing;
mod dealing;
mod lines;
mod moving;
mod opening;
mod plays;
mod seat;
mod steps;
mod view;
mod words;

pub use board::Board;
pub use closing::Closed;
pub use hp_hall::{Kept, Slot};
pub use opening::Opening;
pub use seat::Seat;
pub use view::{Awaited, HeapHolding, LinesDone, Mine, Move};
pub use words::{ACK_WORDS, DONE_WORDS, SLOTS, WORDS};
