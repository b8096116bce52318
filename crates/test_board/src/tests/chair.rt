//! Two participants, each with a hall at the same board: a growth that both map, one that the second cannot map, a slot that is
//! held, what one tells the other, names that go from one to the other, and both as they come home.

mod dealing;
mod growing;
mod homing;
mod naming;
mod opening;
mod playing;
mod serving;
mod shown;
mod staging;
mod telling;
mod trying;
mod turning;
mod visiting;

use hp_hall::Slot;

// Pages of 2M.
const PAGE: u64 = 0x20_0000;

// Where the first list begins.
const BASE: u64 = 0x1_0000_0000;

// How long participants wait for others, in milliseconds. The clocks of these tests stand still, so no deadline passes.
const DEADLINE: u64 = 200;

// The slot of the heap that asks for pages.
const HEAP: Slot = Slot::Heap(0);
