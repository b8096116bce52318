//! What threads share, from outside: mailboxes, statistics, pools and rings. Tests alone, in a crate of their own, so that each of their
//! crates is proved once.
#![tactic(auto)]

#[cfg(test)]
mod tests;
