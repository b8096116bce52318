//! Worked values of the reader of workloads, from outside: tests alone, in a crate of their own, so that `hp_script` is proved once.
#![tactic(auto)]

#[cfg(test)]
mod tests;
