//! What agreement among several participants gives: definitions, lemmas and laws, and no code.
#![tactic(auto)]

mod laws;

pub use laws::{alike_law, restoring_law};
