ghost use Rattle.std.specs.Prelude.{◌≡◌, ◌∷◌, [], IfOk};
ghost use Rattle.hp_zone.specs.Directory.{opened};
ghost use Rattle.hp_zone.specs.Zones.{no_zones};
ghost use Rattle.hp_board.specs.Served.{AreOpeningPens};
ghost use Rattle.hp_board.specs.SeatView.{new_seats};

use crate::heaps::opening_heaps;
use crate::segs::opening_segs;
use hp_base::MAX_HEAPS;
use hp_board::{Board, Seat};
use hp_stats::{StatCells, StatParts};
use hp_zone::Names;
use std::alloc::{AllocError, Global};

// The cells of a board's heaps, with their pens.
fn opening_cells(alloc: Global) -> Result<StatParts, AllocError>
    ensures { IfOk result (λ parts. AreOpeningPens parts.cells parts.pens.items) }
{
    StatCells::new(alloc, MAX_HEAPS as u32, 1)
}

// The names of a board whose first heap is that of socket 0.
fn opening_names(alloc: Global) -> Result<Names, AllocError>
    ensures heaps { IfOk result (λ names. names.heaps ≡ opened (0 ∷ [])) }
    ensures zones { IfOk result (λ names. names.zones ≡ no_zones) }
{
    Names::new(alloc, &[0])
}

// A board of three participants, and the seats of these. Nothing is published of its heaps, and so no cell is kept.
pub fn opening_board(alloc: Global) -> Result<(Board, Vec<Seat>), AllocError>
    ensures participants { IfOk result (λ made. made.0.opening.participants ≡ 3) }
    ensures seats { IfOk result (λ made. made.1.items ≡ new_seats made.0) }
{
    let heaps = opening_heaps(alloc)?;
    let names = opening_names(alloc)?;
    let segs = opening_segs(alloc)?;
    let StatParts {
        cells,
        pens,
        passes: _,
    } = opening_cells(alloc)?;
    Board::new(alloc, heaps, pens, &cells, segs, names, 3)
}
