ghost use Rattle.std.specs.Prelude.{IfOk};
ghost use Rattle.hp_board.specs.Served.{AreOpeningSegs};

use hp_segs::{PoolLine, Segs};
use std::alloc::{AllocError, Global};

/// Pages of 2M of socket 0.
const POOL: PoolLine = PoolLine {
    socket: 0,
    page: 0x20_0000,
    pages: 8_192,
    slots: 8_192,
};

// The segment value of a board of three participants, of which the first two are in the roster.
pub fn opening_segs(alloc: Global) -> Result<Segs, AllocError>
    ensures { IfOk result (AreOpeningSegs 3) }
{
    Segs::new(alloc, [POOL].as_slice(), 3, 4)
}
