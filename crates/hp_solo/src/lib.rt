//! A hall in which participants take turns in one thread: while one of them does its line, the others serve whenever it waits.
#![tactic(auto)]

mod alone;
mod solo_end;
mod solo_hall;

pub use solo_end::SoloEnd;
pub use solo_hall::SoloHall;
