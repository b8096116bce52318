//! Hugepage pools: how many pages of each socket and page size there are, and how many are free.
#![tactic(auto)]

mod fault;
mod pool;
mod pools;

pub use fault::{PoolAddFault, TakeFault};
pub use pool::Pool;
pub use pools::Pools;
