//! The program as one call: a workload is read, run and reported.
#![tactic(auto)]

mod answer_log;
mod apart;
mod checking;
mod contexts;
mod deed;
mod doing;
mod generating;
mod kit;
mod mappers;
mod one_thread;
mod opening;
mod reading;
mod refusal;
mod run_call;
mod running;
mod solo_call;
mod summary;
mod told;
mod top_call;
mod writing;

pub use apart::ended_on_threads;
pub use checking::check;
pub use generating::{generate_summary, generate_text};
pub use kit::Kit;
pub use mappers::{mem_kits, mem_mappers};
pub use refusal::{Refusal, RunFault};
pub use solo_call::solo;
pub use top_call::top;
