//! How cells, pens and passes are made.
ghost use Rattle.std.specs.Prelude.{◌≡◌, IfOk, OnOk, length, map, replicate};
ghost use Rattle.hp_stats.specs.StatViews.{new_pass, new_pen};

use crate::stat_cell::StatCell;
use crate::stat_cells::StatCells;
use crate::stat_pass::StatPass;
use crate::stat_pen::StatPen;
use std::alloc::{AllocError, Global};

// The cells of heaps, and the pen of each.
pub(crate) struct Opened {
    pub cells: StatCells,
    pub pens: Vec<StatPen>,
}

// A cell for each heap, and its pen.
pub(crate) fn cells_and_pens(alloc: Global, heaps: u32) -> Result<Opened, AllocError>
    ensures cells { IfOk result (λ opened. length opened.cells ≡ heaps) }
    ensures pens { IfOk result (λ opened. opened.pens.items ≡ map new_pen opened.cells) }
{
    let mut cells = Vec::with_capacity(alloc, heaps as usize)?;
    let mut pens = Vec::with_capacity(alloc, heaps as usize)?;
    for _heap in 0..heaps {
        let (cell, pen) = StatCell::new(alloc)?;
        cells.push_reserved(cell);
        pens.push_reserved(pen);
    }
    Ok(Opened {
        cells: StatCells { cells },
        pens,
    })
}

// A pass for each reader.
pub(crate) fn passes_to(
    alloc: Global,
    cells: &StatCells,
    pens: &mut Vec<StatPen>,
    readers: u8,
) -> Result<Vec<StatPass>, AllocError>
    requires pens { pens.old.items ≡ map new_pen cells.now }
    ensures pens { OnOk result (pens.new.items ≡ pens.old.items) }
    ensures passes { IfOk result (λ passes. passes.items ≡ replicate readers (new_pass cells.now)) }
{
    let mut passes = Vec::with_capacity(alloc, readers as usize)?;
    for _reader in 0..readers {
        passes.push_reserved(pass_to(alloc, cells, pens)?);
    }
    Ok(passes)
}

// A pass that has read nothing.
fn pass_to(
    alloc: Global,
    cells: &StatCells,
    pens: &mut Vec<StatPen>,
) -> Result<StatPass, AllocError>
    requires pens { pens.old.items ≡ map new_pen cells.now }
    ensures pens { OnOk result (pens.new.items ≡ pens.old.items) }
    ensures pass { IfOk result (λ pass. pass ≡ new_pass cells.now) }
{
    let count = cells.cells.len();
    let mut readers = Vec::with_capacity(alloc, count)?;
    for heap in 0..count {
        let cell = &cells.cells[heap];
        let pen = &mut pens[heap];
        readers.push_reserved(cell.reader(pen));
    }
    Ok(StatPass { readers })
}
