//! Why growths are refused in one thread: definitions, lemmas and laws, and no code.
#![tactic(auto)]

mod laws;

pub use laws::{
    catch_up_law, counting_law, failing_law, in_time_law, none_law, notices_law, serving_law,
    timeouts_law,
};
