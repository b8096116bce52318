//! What the moves of a board say of a run over threads: definitions, lemmas and laws, and no code.
#![tactic(auto)]

mod laws;

pub use laws::{board_law, close_law, moves_law, names_law};
