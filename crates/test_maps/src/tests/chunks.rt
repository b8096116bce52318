//! External memory beside the table.

use super::heard::{comes, goes};
use super::looks::Look::{Calls, Empty, Three, Two};
use super::play::{Log, play};
use super::steps::Step::{Attach, Detach, Follow, See};
use super::{BASE, FIRST_ROW};
use hp_base::Caught::Done;
use hp_base::Row;
use std::test::Fail;

// The rows of the chunk.
const CHUNK_ROW: Row = Row {
    addr: 0x70_0000_0000,
    page: 0x1000,
    socket: 256,
    list: 1,
    slot: 0,
    generation: 0,
};

const NEXT_ROW: Row = Row {
    addr: 0x70_0000_1000,
    slot: 1,
    ..CHUNK_ROW
};

#[test]
fn keeps_a_chunk_beside_the_table(rt: HostRuntime) -> Result<(), Fail> {
    let steps = [
        Attach(Done),
        See(Two(CHUNK_ROW, NEXT_ROW)),
        Follow(1, Done),
        See(Three(CHUNK_ROW, NEXT_ROW, FIRST_ROW)),
        Follow(2, Done),
        See(Two(CHUNK_ROW, NEXT_ROW)),
        Detach,
        See(Empty),
        See(Calls(3)),
    ];
    let told = [comes(BASE, 1), goes(BASE, 1)];
    play(
        rt.alloc(),
        Log::OneAtATime,
        None,
        steps.as_slice(),
        told.as_slice(),
    )
}
