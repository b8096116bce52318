//! A mailbox for each of the two and each one's passes to both, and the cells of the heaps' statistics with a pass for each.
ghost use Rattle.std.specs.Prelude.{◌≡◌, ◌<◌, ◌≤◌, ◌∷◌, [], IfOk, IfSome, length, vec_capacity};
ghost use Rattle.hp_mail.specs.PassView.{new_pass};
ghost use Rattle.hp_stats.specs.StatViews as stats;
ghost use Rattle.hp_board.specs.Served.{AreOpeningPens};
ghost use Rattle.hp_chair.specs.Places.{ArePlaces};

use hp_base::MAX_HEAPS;
use hp_mail::{Mailbox, Pass};
use hp_stats::{StatCells, StatParts, StatPass, StatPen};
use std::alloc::{AllocError, Global};

// How many frames a mailbox has room for.
const ROOM: usize = 64;

/// The mailboxes of both, by their numbers, and the passes of each, by the mailboxes.
#[derive(Drop)]
pub struct Dealt {
    pub boxes: Vec<Mailbox>,
    pub first: Vec<Pass>,
    pub second: Vec<Pass>,
}

/// The cells of the heaps' statistics, the pen of each, and a pass for each of the two.
#[derive(Drop)]
pub struct Readers {
    pub cells: StatCells,
    pub pens: Vec<StatPen>,
    pub first: StatPass,
    pub second: StatPass,
}

/// Two of a kind, if there are so many.
pub fn two<T: Drop>(items: Vec<T>) -> Option<(T, T)>
    ensures { IfSome result (λ both. items.items ≡ both.0 ∷ both.1 ∷ []) }
{
    let mut items = items;
    let second = items.pop()?;
    let first = items.pop()?;
    if !items.is_empty() {
        return None;
    }
    Some((first, second))
}

/// Two of a kind in a vector with room for them.
pub fn gathered<T: Drop>(items: Vec<T>, first: T, second: T) -> Vec<T>
    requires empty { items.items ≡ [] }
    requires room { 2 ≤ vec_capacity items }
    ensures { result.items ≡ first ∷ second ∷ [] }
{
    let mut items = items;
    items.push_reserved(first);
    items.push_reserved(second);
    items
}

// Both mailboxes in a vector.
fn both(alloc: Global, first: Mailbox, second: Mailbox) -> Result<Vec<Mailbox>, AllocError>
    ensures { IfOk result (λ boxes. boxes.items ≡ first ∷ second ∷ []) }
{
    let mut boxes = Vec::with_capacity(alloc, 2)?;
    boxes.push_reserved(first);
    boxes.push_reserved(second);
    Ok(boxes)
}

// The mailbox of that owner, and the passes of both to it.
fn box_of(alloc: Global, owner: u8) -> Result<(Mailbox, Pass, Pass), AllocError>
    requires owner { owner < 2 }
    ensures first { IfOk result (λ made. made.1 ≡ new_pass made.0.id 2 owner 0) }
    ensures second { IfOk result (λ made. made.2 ≡ new_pass made.0.id 2 owner 1) }
{
    let (mailbox, passes) = Mailbox::new(alloc, ROOM, 2, owner)?;
    let Some((first, second)) = two(passes) else {
        return Err(AllocError);
    };
    Ok((mailbox, first, second))
}

/// Two mailboxes with the passes of both participants to each.
pub fn boxes_of_two(alloc: Global) -> Result<Dealt, AllocError>
    ensures count { IfOk result (λ dealt. length dealt.boxes.items ≡ 2) }
    ensures first { IfOk result (λ dealt. ArePlaces 0 [] dealt.boxes.items dealt.first.items) }
    ensures second { IfOk result (λ dealt. ArePlaces 1 [] dealt.boxes.items dealt.second.items) }
{
    let of_first = Vec::with_capacity(alloc, 2)?;
    let of_second = Vec::with_capacity(alloc, 2)?;
    let (first_box, first_own, second_there) = box_of(alloc, 0)?;
    let (second_box, first_there, second_own) = box_of(alloc, 1)?;
    let boxes = both(alloc, first_box, second_box)?;
    let first = gathered(of_first, first_own, first_there);
    let second = gathered(of_second, second_there, second_own);
    Ok(Dealt {
        boxes,
        first,
        second,
    })
}

/// Cells in which nothing is published, and a pass for each of the two, by which nothing was read.
pub fn readers_of_two(alloc: Global) -> Result<Readers, AllocError>
    ensures pens { IfOk result (λ readers. AreOpeningPens readers.cells readers.pens.items) }
    ensures first { IfOk result (λ readers. readers.first ≡ stats.new_pass readers.cells) }
    ensures second { IfOk result (λ readers. readers.second ≡ stats.new_pass readers.cells) }
{
    let StatParts {
        cells,
        pens,
        passes,
    } = StatCells::new(alloc, MAX_HEAPS as u32, 2)?;
    let Some((first, second)) = two(passes) else {
        return Err(AllocError);
    };
    Ok(Readers {
        cells,
        pens,
        first,
        second,
    })
}
