//! What participants on threads leave by what each of them did: definitions, lemmas and laws, and no code.
#![tactic(auto)]

mod laws;

pub use laws::{failing_law, going_law, threads_law, watching_law};
