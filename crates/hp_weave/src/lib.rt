//! How what participants do one by one comes together: definitions and lemmas, and no code but the laws.
#![tactic(auto)]

mod laws;

pub use laws::{interleaving_law, weaving_law};
