//! Pools of objects of one size in a memzone, with a cache for each worker, and a program that exercises one.
#![tactic(auto)]

mod fault;
mod filling;
mod gate;
mod judging;
mod laws;
mod load;
mod numbers;
mod obj;
mod pool;
mod pool_pass;
mod report;
mod roles;
mod rounds;
mod sharing;
mod top_call;
mod view;

pub use fault::PoolFault;
pub use gate::{Gate, OpenGate};
pub use judging::{MAX_CACHE, MAX_OBJECTS, MAX_SIZE, OBJECT_HEADER};
pub use laws::holder_law;
pub use load::{MAX_ROUNDS, MAX_WORKERS};
pub use obj::Obj;
pub use pool::Pool;
pub use pool_pass::PoolPass;
pub use top_call::{exercise, top};
