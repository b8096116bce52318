//! Participants at one board: two of them each with a hall there, and three by hand over its locks.
mod chair;
mod opening;
mod turn;
