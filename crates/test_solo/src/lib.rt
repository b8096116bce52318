//! Participants that take turns in one thread, on worked values: tests alone, in a crate of their own, so that `hp_solo` is proved once.
#![tactic(auto)]

#[cfg(test)]
mod plain;
#[cfg(test)]
mod solo_hall;
#[cfg(test)]
mod tests;
