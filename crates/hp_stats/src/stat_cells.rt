ghost use Rattle.std.specs.Prelude.{◌≡◌, ◌<◌, ◌≤◌, IfOk, length, map, replicate};
ghost use Rattle.hp_base.specs.declared.limits.TheConstants.{MAX_PARTICIPANTS};
ghost use Rattle.hp_stats.specs.Pairs.{AreAmong, IsNotBelow, pair};
ghost use Rattle.hp_stats.specs.StatViews.{IsPenOf, has_published, last_count, new_pass, new_pen, seen_of, sees};

use crate::opening::{Opened, cells_and_pens, passes_to};
use crate::stat_cell::StatCell;
use crate::stat_pair::StatPair;
use crate::stat_pass::StatPass;
use crate::stat_pen::StatPen;
use hp_base::{MAX_PARTICIPANTS, Stats};
use std::alloc::{AllocError, Global};
use std::marker::Model;
use std::sync::Wait;

/// The newest statistics of each heap, which threads share. Own; rte_malloc_get_socket_stats takes the heap's lock.
#[derive(Drop)]
pub struct StatCells {
    // One for each heap.
    pub(crate) cells: Vec<StatCell>,
}

impl Model for StatCells {
    ghost use Rattle.std.specs.Prelude.{List};
    ghost use Rattle.atomic_table.specs.Seated.{TableId};

    ghost Value = { List TableId };

    ghost view = { λ a. a.cells.items };
}

/// The cells of a run's heaps, the pen of each heap, and a pass for each reader. Own.
pub struct StatParts {
    pub cells: StatCells,
    pub pens: Vec<StatPen>,
    pub passes: Vec<StatPass>,
}

impl StatCells {
    /// Cells for that many heaps, a pen for each heap, and a pass for each reader. Nothing is published yet. Own.
    pub fn new(alloc: Global, heaps: u32, readers: u8) -> Result<StatParts, AllocError>
        requires some { 0 < readers }
        requires few { readers ≤ MAX_PARTICIPANTS }
        ensures cells { IfOk result (λ parts. length parts.cells ≡ heaps) }
        ensures pens { IfOk result (λ parts. parts.pens.items ≡ map new_pen parts.cells) }
        ensures passes { IfOk result (λ parts. parts.passes.items ≡ replicate readers (new_pass parts.cells)) }
    {
        let Opened { cells, mut pens } = cells_and_pens(alloc, heaps)?;
        let passes = passes_to(alloc, &cells, &mut pens, readers)?;
        Ok(StatParts {
            cells,
            pens,
            passes,
        })
    }

    /// Publishes a heap's statistics after that many entries, in one step, and tells the pass of them. Own.
    pub fn publish<R: Wait>(
        &self,
        rt: &R,
        pen: &mut StatPen,
        pass: &mut StatPass,
        heap: u32,
        entries: u64,
        stats: &Stats,
    )
        requires pen { IsPenOf self.now heap pen.old }
        requires pass { pass.old.cells ≡ self.now }
        requires count { last_count pen.old ≤ entries }
        ensures published { pen.new ≡ has_published (pair entries stats.now) pen.old }
        ensures told { pass.new ≡ sees heap (pair entries stats.now) pass.old }
    {
        let at = heap as usize;
        let pair = StatPair {
            entries,
            stats: *stats,
        };
        let cell = &self.cells[at];
        let reader = &mut pass.readers[at];
        cell.publish(rt, pen, reader, pair);
    }

    /// The newest count of entries and statistics of a heap; zeros where nothing is published. It takes no lock of the heap. Own.
    pub fn read<R: Wait>(&self, rt: &R, pass: &mut StatPass, heap: u32) -> (u64, Stats)
        requires pass { pass.old.cells ≡ self.now }
        requires heap { heap < length self.now }
        ensures read { pass.new ≡ sees heap (pair result.0 result.1) pass.old }

        // The count is not below any that this pass has read or published for the heap.
        ensures not_below { IsNotBelow (seen_of heap pass.old) result.0 }
    {
        let at = heap as usize;
        let cell = &self.cells[at];
        let reader = &mut pass.readers[at];
        let found = cell.read(rt, reader);
        (found.entries, found.stats)
    }

    /// Compares what a pass has read of a heap with what the heap's pen has published. Nothing changes. Own.
    pub fn meet<R: Wait>(&self, rt: &R, pen: &mut StatPen, pass: &mut StatPass, heap: u32)
        requires pen { IsPenOf self.now heap pen.old }
        requires pass { pass.old.cells ≡ self.now }

        // Each pair that it has read was published, or is zeros with count 0.
        ensures among { AreAmong pen.old.published (seen_of heap pass.old) }
        ensures pen_same { pen.new ≡ pen.old }
        ensures pass_same { pass.new ≡ pass.old }
    {
        let at = heap as usize;
        let cell = &self.cells[at];
        let reader = &mut pass.readers[at];
        cell.meet(rt, pen, reader);
    }
}
