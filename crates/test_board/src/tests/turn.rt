//! Three participants of a board. One cannot map what another asked for: the growth is opened, cancelled and rolled back. Two reserve and free a
//! memzone of one name by turns, in external memory that the third has brought.

mod asker;
mod attached;
mod brought;
mod leader;
mod loading;
mod member;
mod obeying;
mod opening;
mod rolled_back;
mod stepping;
mod turns;
mod zone_turns;
mod zones;

use hp_turn::Slot;

// Pages of 2M.
const PAGE: u64 = 0x20_0000;

// The slots of the segment value, and of the heap that asks for pages.
const SEGMENTS: Slot = Slot::Segments;

const HEAP: Slot = Slot::Heap(0);

// The slot of the names, and that of the heap of external memory.
const NAMES: Slot = Slot::NamesSlot;

const OUTSIDE: Slot = Slot::Heap(1);
