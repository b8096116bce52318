//! Two halls at one board, which take turns in one thread.
ghost use Rattle.test_board.specs.Seating.{IsSeated, MayShow};

use super::naming::name_found;
use super::playing::{Player, Shared, hall_of};
use super::staging::set_up;
use super::telling::told;
use super::trying::found;
use hp_base::Name;
use hp_hall::Hall;
use std::alloc::{AllocError, Global};
use std::sync::Wait;
use std::test::Fail;

// What the two do, with what has to come of it.
#[derive(Clone, Copy)]
enum Turns {
    // The first holds the segment value, and gives it back: the second finds its lock word, and then the slot free.
    Try,
    // The first tells of a line that is done, and of a heap in its hand: the second finds neither before.
    Tell,
    // The first takes the names, which are refused to the second, and gives them back: both find the name of heap 0.
    Name,
}

// Whether that comes of it.
fn come_out<H: Hall>(first: &mut H, second: &mut H, turns: Turns) -> Result<bool, AllocError>
    requires first { MayShow 0 (H.state first.old) }
    requires second { MayShow 1 (H.state second.old) }
{
    match turns {
        Turns::Try => Ok(found(first, second) == (Some(1), true)),
        Turns::Tell => Ok(told(first, second)? == ((0, 1), (0, 1))),
        Turns::Name => {
            let Some(name) = Name::new(b"socket_0") else {
                return Ok(false);
            };
            Ok(name_found(first, second, name) == (true, Some((0, 0)), Some((0, 0))))
        }
    }
}

// Whether it does where both have opened their halls.
fn by_two<R: Wait>(
    rt: &R,
    shared: Shared<'_>,
    first: Player,
    second: Player,
    turns: Turns,
) -> Result<bool, AllocError>
    requires first { IsSeated 0 shared.board.now shared.boxes.now shared.cells.now first.seat first.passes.items first.stats }
    requires second { IsSeated 1 shared.board.now shared.boxes.now shared.cells.now second.seat second.passes.items second.stats }
{
    let mut first = hall_of(rt, shared, first);
    let mut second = hall_of(rt, shared, second);
    come_out(&mut first, &mut second, turns)
}

// Whether it does in a room of their own.
fn in_a_room<R: Wait>(rt: &R, alloc: Global, turns: Turns) -> Result<bool, AllocError> {
    let (room, first, second) = set_up(alloc)?;
    let shared = Shared {
        marks: &room.marks,
        board: &room.board,
        boxes: room.boxes.as_slice(),
        cells: &room.cells,
    };
    by_two(rt, shared, first, second, turns)
}

// It does.
fn comes_of<R: Wait>(rt: &R, alloc: Global, turns: Turns) -> Result<(), Fail> {
    if !in_a_room(rt, alloc, turns)? {
        return Err("something else came of it".into());
    }
    Ok(())
}

#[test]
fn finds_a_slot_held_by_the_other(rt: HostRuntime) -> Result<(), Fail> {
    comes_of(&rt, rt.alloc(), Turns::Try)
}

#[test]
fn finds_what_the_other_tells(rt: HostRuntime) -> Result<(), Fail> {
    comes_of(&rt, rt.alloc(), Turns::Tell)
}

#[test]
fn finds_a_name_that_the_other_found(rt: HostRuntime) -> Result<(), Fail> {
    comes_of(&rt, rt.alloc(), Turns::Name)
}
