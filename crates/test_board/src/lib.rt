//! Participants at one board, from outside: by hand over its locks (`hp_turn`), and in halls of their own (`hp_chair`). Tests alone, in a
//! crate of their own, so that each of those crates is proved once.
#![tactic(auto)]

#[cfg(test)]
mod tests;
