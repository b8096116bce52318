//! A table of one row, over a mapper that holds one.

use super::{ADD, ADD_SECOND, DROP, FIRST_ROW, SECOND_ROW};
use hp_base::{Caught, MemMapper, Row, Silent};
use hp_maps::LocalMaps;
use std::test::Fail;

#[test]
fn makes_room_in_a_full_mapper_first(rt: HostRuntime) -> Result<(), Fail> {
    let mut maps = LocalMaps::new(rt.alloc(), MemMapper::new(rt.alloc(), 1)?, 1)?;
    let caught = maps.catch_up([ADD].as_slice(), 1, &mut Silent);
    assert!(rt; caught == Caught::Done);
    assert!(rt; maps.rows() == [FIRST_ROW].as_slice());
    let caught = maps.catch_up([ADD, DROP, ADD_SECOND].as_slice(), 3, &mut Silent);
    assert!(rt; caught == Caught::Done);
    let second = Row {
        generation: 3,
        ..SECOND_ROW
    };
    assert!(rt; maps.rows() == [second].as_slice());
    assert!(rt; maps.into_rows().as_slice() == [second].as_slice());
    Ok(())
}
