//! Worked values of the calls of a heap, from outside: tests alone, in a crate of their own, so that `hp_heap` is proved once.
#![tactic(auto)]

#[cfg(test)]
mod tests;
