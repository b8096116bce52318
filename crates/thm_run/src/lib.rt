//! What a run of a workload leaves, in which participants take turns in one thread: definitions, lemmas and laws, and no code.
#![tactic(auto)]

mod laws;

pub use laws::{
    counted_law, drops_law, end_law, failure_law, handed_law, holds_law, judged_law, line_law,
    names_end_law, numbers_law, refusal_law, runs_law, shown_law, together_law, watch_law,
    ways_law,
};
