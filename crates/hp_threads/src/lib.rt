//! Participants that do their lines over one board, each on a thread of its own.
#![tactic(auto)]

mod adding;
mod answers;
mod counting;
mod dealing;
mod doing;
mod ended;
mod meeting;
mod newcomer;
mod passes;
mod running;
mod serving;
mod shared;
mod threads;
mod weaving;
mod worker;
mod working;

pub use ended::Ended;
pub use newcomer::Newcomer;
pub use running::run_apart;
