//! Worked values of the calls of the low crates, from outside: tests alone, in a crate of their own, so that each of those is proved once.
#![tactic(auto)]

#[cfg(test)]
mod tests;
