//! Worked values of whole runs, from outside: tests alone, in a crate of their own, so that `hp_run` is proved once.
#![tactic(auto)]

#[cfg(test)]
mod tests;
