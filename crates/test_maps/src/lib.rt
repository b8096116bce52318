//! Worked values of a participant's table, from outside: tests alone, in a crate of their own, so that `hp_maps` is proved once.
#![tactic(auto)]

#[cfg(test)]
mod tests;
