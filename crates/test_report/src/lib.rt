//! Worked reports, byte by byte, from outside: tests alone, in a crate of their own, so that `hp_report` is proved once.
#![tactic(auto)]

#[cfg(test)]
mod tests;
