//! What is seen of a table.

use hp_base::{Mapper, Row};
use hp_maps::LocalMaps;

/// What has to be seen.
#[derive(Clone, Copy)]
pub enum Look {
    // These are its rows, in their order.
    Empty,
    One(Row),
    Two(Row, Row),
    Three(Row, Row, Row),
    // Whether a row is mapped.
    Maps(Row, bool),
    // Its number, and how many mapping calls there were.
    Number(u64),
    Calls(u64),
}

pub fn is_so<M: Mapper>(maps: &LocalMaps<M>, look: Look) -> bool {
    match look {
        Look::Empty => maps.rows().is_empty(),
        Look::One(row) => maps.rows() == [row].as_slice(),
        Look::Two(row, next) => maps.rows() == [row, next].as_slice(),
        Look::Three(row, next, last) => maps.rows() == [row, next, last].as_slice(),
        Look::Maps(row, mapped) => maps.maps(&row) == mapped,
        Look::Number(number) => maps.number() == number,
        Look::Calls(calls) => maps.calls() == calls,
    }
}
