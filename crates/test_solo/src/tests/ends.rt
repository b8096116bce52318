//! What participants leave at the end of a run.

use super::acts::Act;
use super::growths::FIRST_ROW;
use super::playing::play_to_end;
use super::stage::{Left, left_by};
use super::{DEADLINE, member};
use Act::*;
use hp_base::{MAX_SEGMENTS, MemMapper, Plan};
use hp_hall::Posted;
use hp_maps::{LocalMaps, Planned};
use hp_serve::Server;
use std::alloc::{AllocError, Global};
use std::test::Fail;

// A participant that is not attached.
fn outsider(alloc: Global, plan: &Plan) -> Result<Server<'_, MemMapper>, AllocError> {
    let rows = MAX_SEGMENTS as usize;
    let mapper = Planned::new(MemMapper::new(alloc, rows)?, plan, 2);
    let maps = LocalMaps::new(alloc, mapper, rows)?;
    Ok(Server::new(alloc, 2, 0, false, maps, plan, DEADLINE))
}

// Both have mapped the page that was granted.
const BOTH_MAP: &[Act] = &[
    Alloc(1, Posted::Sent),
    Primary(true),
    Secondary(true),
    Primary(true),
];

const ONE_ROW: Left = Left {
    joined: true,
    number: 1,
    rows: 1,
    first: Some(FIRST_ROW),
};

#[test]
fn leaves_a_row(rt: HostRuntime) -> Result<(), Fail> {
    let left = play_to_end(rt.alloc(), None, BOTH_MAP)?;
    assert!(rt; left == (ONE_ROW, ONE_ROW));
    Ok(())
}

// Of one that has taken nothing in yet.
const fn nothing(joined: bool) -> Left {
    Left {
        joined,
        number: 0,
        rows: 0,
        first: None,
    }
}

// Whether one that has taken nothing in, and is attached or not, leaves just that.
fn leaves_nothing(alloc: Global, joined: bool) -> Result<bool, AllocError> {
    let plan = Plan::new(alloc);
    let party = if joined {
        member(alloc, 1, &plan)?
    } else {
        outsider(alloc, &plan)?
    };
    Ok(left_by(party, alloc)? == nothing(joined))
}

// One that is attached has taken nothing in yet, and one is not.
#[test]
fn leaves_no_row(rt: HostRuntime) -> Result<(), Fail> {
    assert!(rt; leaves_nothing(rt.alloc(), true)?);
    assert!(rt; leaves_nothing(rt.alloc(), false)?);
    Ok(())
}
