ghost use Rattle.std.specs.Prelude.{◌≡◌, ◌<◌, ◌≤◌, IfOk, map};
ghost use Rattle.hp_board.specs.Served.{AreOpeningHeaps, AreOpeningNames, AreOpeningPens, AreOpeningSegs, serves_of};
ghost use Rattle.hp_board.specs.SeatView.{new_seats};

use crate::dealing::deal;
use crate::moving::into_slots;
use crate::opening::Opening;
use crate::plays::Slots;
use crate::seat::Seat;
use crate::words::WORDS;
use atomic_table::{Refused, Table};
use hp_base::MAX_PARTICIPANTS;
use hp_heap::Heap;
use hp_segs::Segs;
use hp_stats::{StatCells, StatPen};
use hp_zone::Names;
use std::alloc::{AllocError, Global};
use std::marker::Model;

/// What the participants of a run share: heaps, the segment value and the names in slots, each under a lock word, and an acknowledgement word
/// for each participant. A lock word is 0 where the slot is unlocked, and else the holder's number plus 1. Own; rte_malloc has a spin
/// lock in each heap, and the memory map and the memzones have a lock each.
#[derive(Drop)]
pub struct Board {
    pub(crate) table: Slots,
    // Emptied when the board opened; `close` fills it again.
    pub(crate) heaps: Vec<Heap>,
}

impl Model for Board {
    ghost use Rattle.hp_board.specs.BoardView.{BoardView};

    ghost Value = { BoardView };

    ghost use Rattle.hp_board.specs.BoardInside.{board_view, IsInside};

    ghost view = { board_view };

    ghost invariant = { IsInside };
}

impl Board {
    /// A board of these heaps, the one at each place in the slot of that number and with it the pen of its cell, of a segment value without a
    /// record, and of names that were just opened; and a seat for each participant, by its number. Own.
    pub fn new(
        alloc: Global,
        heaps: Vec<Heap>,
        pens: Vec<StatPen>,
        cells: &StatCells,
        segs: Segs,
        names: Names,
        participants: u8,
    ) -> Result<(Board, Vec<Seat>), AllocError>
        requires heaps { AreOpeningHeaps heaps.items }
        requires pens { AreOpeningPens cells.now pens.items }
        requires segs { AreOpeningSegs participants segs }
        requires names { AreOpeningNames heaps.items names }
        requires some { 0 < participants }
        requires few { participants ≤ MAX_PARTICIPANTS }
        ensures participants { IfOk result (λ made. made.0.opening.participants ≡ participants) }
        ensures serves { IfOk result (λ made. made.0.opening.serves ≡ map serves_of heaps.items) }
        ensures cells { IfOk result (λ made. made.0.opening.cells.value ≡ cells.now) }
        ensures segs { IfOk result (λ made. made.0.opening.segs.value ≡ segs) }
        ensures names { IfOk result (λ made. made.0.opening.names.value ≡ names) }
        ensures seats { IfOk result (λ made. made.1.items ≡ new_seats made.0) }
    {
        let _records = segs.records();
        let _zones = names.zones.log();
        let _changes = names.heaps.log();
        let opening = Opening::of(&heaps, cells, &segs, &names, participants);
        let mut heaps = heaps;
        let mut pens = pens;
        let slots = into_slots(alloc, &mut heaps, &mut pens, segs, names)?;
        let (table, token) = match Table::new(alloc, &[0; WORDS], slots, &opening) {
            Ok(made) => made,
            Err(Refused { slots: _ }) => return Err(AllocError),
        };
        let seats = deal(alloc, &table.shared, token, participants)?;
        Ok((Board { table, heaps }, seats))
    }
}
