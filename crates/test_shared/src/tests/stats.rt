//! Cells of three heaps, with the pen of heap 1 and two readers.
ghost use Rattle.std.specs.Prelude.{◌≡◌, ◌<◌, ◌∷◌, [], IfOk, IfSome, length};
ghost use Rattle.hp_stats.specs.StatViews.{IsPenOf};

mod steps;
mod threads;

use hp_base::Stats;
use hp_stats::{StatCells, StatParts, StatPass, StatPen};
use std::alloc::{AllocError, Global};

// What is read before anything is published.
const ZEROS: Stats = Stats {
    total: 0,
    free: 0,
    used: 0,
    greatest: 0,
    busy: 0,
    frees: 0,
};

// Statistics that tell a number.
fn stats_of(number: u64) -> Stats {
    Stats {
        total: number,
        free: number ^ 1,
        used: number ^ 2,
        greatest: number ^ 3,
        busy: number ^ 4,
        frees: number ^ 5,
    }
}

#[derive(Drop)]
struct Counter {
    cells: StatCells,
    pen: StatPen,
    first: StatPass,
    second: StatPass,
    ghost heaps: { length cells ≡ 3 },
    ghost publishes: { IsPenOf cells 1 pen },
    ghost unpublished: { pen.published ≡ [] },
    ghost first_reads: { first.cells ≡ cells },
    ghost second_reads: { second.cells ≡ cells },
}

// Cells in which nothing is published.
fn opened(alloc: Global) -> Result<Counter, AllocError> {
    let StatParts {
        cells,
        pens,
        passes,
    } = StatCells::new(alloc, 3, 2)?;
    let Some((_, pen, _)) = three(pens) else {
        return Err(AllocError);
    };
    let Some((first, second)) = two(passes) else {
        return Err(AllocError);
    };
    Ok(Counter {
        cells,
        pen,
        first,
        second,
    })
}

// Three pens, if there are so many.
fn three(pens: Vec<StatPen>) -> Option<(StatPen, StatPen, StatPen)>
    ensures { IfSome result (λ all. pens.items ≡ all.0 ∷ all.1 ∷ all.2 ∷ []) }
{
    let mut pens = pens;
    let third = pens.pop()?;
    let second = pens.pop()?;
    let first = pens.pop()?;
    if !pens.is_empty() {
        return None;
    }
    Some((first, second, third))
}

// Two passes, if there are so many.
fn two(passes: Vec<StatPass>) -> Option<(StatPass, StatPass)>
    ensures { IfSome result (λ all. passes.items ≡ all.0 ∷ all.1 ∷ []) }
{
    let mut passes = passes;
    let second = passes.pop()?;
    let first = passes.pop()?;
    if !passes.is_empty() {
        return None;
    }
    Some((first, second))
}
