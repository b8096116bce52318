//! Memory event callbacks and allocation validators, as values: who is told of memory that comes and goes, and who may deny a growth.
#![tactic(auto)]

mod fault;
mod limits;
mod rows_then;
mod telling;
mod validator;
mod validators;
mod watcher;
mod watchers;

pub use fault::{LimitFault, NotFound, UnwatchFault, WatchFault};
pub use limits::MAX_WATCHERS;
pub use validator::Validator;
pub use validators::Validators;
pub use watchers::Watchers;
