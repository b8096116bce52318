//! Worked values of the segment value's calls, from outside: tests alone, in a crate of their own, so that `hp_segs` is proved once.
#![tactic(auto)]

#[cfg(test)]
mod tests;
