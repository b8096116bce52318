//! The theory of linked chains, for values of any type: definitions and lemmas, and no code but the laws.
#![tactic(auto)]

mod laws;

pub use laws::order_law;
