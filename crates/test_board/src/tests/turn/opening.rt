//! The segment value that the board opens with, its cells, and the board.
ghost use Rattle.std.specs.Prelude.{◌≡◌, ◌<◌, ℕ, true, IfOk};
ghost use Rattle.hp_segs.specs.SegsView.{is_member};
ghost use Rattle.hp_board.specs.SeatView.{new_seats};
ghost use Rattle.hp_board.specs.Served.{AreOpeningPens, AreOpeningSegs};

use super::super::opening::{opening_heaps, opening_names};
use super::PAGE;
use hp_base::MAX_HEAPS;
use hp_board::{Board, Seat};
use hp_segs::{PoolLine, Segs};
use hp_stats::{StatCells, StatParts};
use std::alloc::{AllocError, Global};

/// Eight pages of socket 0.
pub const PAGES: u64 = 8;

const POOL: PoolLine = PoolLine {
    socket: 0,
    page: PAGE,
    pages: PAGES,
    slots: 8,
};

// The cells of a board's heaps, with their pens.
fn opening_cells(alloc: Global) -> Result<StatParts, AllocError>
    ensures { IfOk result (λ parts. AreOpeningPens parts.cells parts.pens.items) }
{
    StatCells::new(alloc, MAX_HEAPS as u32, 1)
}

/// The segment value of a board of three participants, all of which are in the roster.
pub fn opening_segs(alloc: Global) -> Result<Segs, AllocError>
    ensures opening { IfOk result (AreOpeningSegs 3) }
    ensures roster { IfOk result (λ segs. (who : ℕ) → who < 3 → is_member segs.roster who ≡ true) }
{
    Segs::new(alloc, [POOL].as_slice(), 3, 0)
}

/// A board of this segment value and three participants, and the seats of these. Nothing is published of its heaps, and so no cell is kept.
pub fn opening_board(alloc: Global, segs: Segs) -> Result<(Board, Vec<Seat>), AllocError>
    requires opening { AreOpeningSegs 3 segs }
    ensures participants { IfOk result (λ made. made.0.opening.participants ≡ 3) }
    ensures segs { IfOk result (λ made. made.0.opening.segs.value ≡ segs) }
    ensures seats { IfOk result (λ made. made.1.items ≡ new_seats made.0) }
{
    let heaps = opening_heaps(alloc)?;
    let names = opening_names(alloc)?;
    let StatParts {
        cells,
        pens,
        passes: _,
    } = opening_cells(alloc)?;
    Board::new(alloc, heaps, pens, &cells, segs, names, 3)
}
