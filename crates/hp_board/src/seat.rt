ghost use Rattle.std.specs.Prelude.{◌≡◌, ◌<◌, ◌≤◌, ◌==◌, [], IfOk};
ghost use Rattle.std.specs.List.{list_any};
ghost use Rattle.std.specs.Option.{is_some};
ghost use Rattle.hp_base.specs.declared.limits.TheConstants.{MAX_PARTICIPANTS};
ghost use Rattle.hp_hall.specs.Slots.{IsSlot, slot_number};
ghost use Rattle.hp_board.specs.Views.{value_of};
ghost use Rattle.hp_board.specs.Parts.{one_part, part_of};

use crate::plays::Token;
use crate::words::SLOTS;
use hp_hall::{Kept, Slot};
use std::alloc::{AllocError, Global};
use std::marker::Model;

/// A participant's place at a board, by which alone it makes its steps. It belongs to one participant, and may go to another
/// thread. Own.
#[derive(Drop)]
pub struct Seat {
    pub(crate) who: u8,
    pub(crate) token: Token,
    // The numbers of the slots that are out with the token, in the token's order.
    pub(crate) order: Vec<usize>,
}

impl Model for Seat {
    ghost use Rattle.hp_board.specs.SeatView.{SeatView};

    ghost Value = { SeatView };

    ghost use Rattle.hp_board.specs.SeatInside.{seat_view, IsSeat};

    ghost view = { seat_view };

    ghost invariant = { IsSeat };
}

impl Seat {
    // The seat of a participant that holds nothing yet.
    pub(crate) fn of(alloc: Global, who: u8, token: Token) -> Result<Seat, AllocError>
        requires one { token.me.0 ≡ one_part (part_of token.me.0) }
        requires who { (part_of token.me.0).who ≡ who }
        requires declared { who < (part_of token.me.0).opening.participants }
        requires few { (part_of token.me.0).opening.participants ≤ MAX_PARTICIPANTS }
        requires free { (part_of token.me.0).held ≡ [] }
        requires out { token.me.1 ≡ [] }
        ensures { IfOk result (λ seat. (seat.board ≡ token.table_id) × (seat.mine ≡ part_of token.me.0)) }
    {
        let order = Vec::with_capacity(alloc, SLOTS)?;
        Ok(Seat { who, token, order })
    }

    // Its token, where it holds no slot.
    pub(crate) fn into_token(self) -> Token
        requires { self.mine.held ≡ [] }
        ensures table { result.table_id ≡ self.board }
        ensures me { result.me ≡ (one_part self.mine, []) }
    {
        let Seat {
            who: _,
            token,
            order: _,
        } = self;
        token
    }

    /// The participant's number. Own.
    pub fn participant(&self) -> u8
        ensures { result ≡ self.now.mine.who }
    {
        self.who
    }

    /// Whether it holds a slot. Own.
    pub fn holds(&self, slot: Slot) -> bool
        requires slot { IsSlot slot }
        ensures { result ≡ is_some (value_of (slot_number slot) self.now.mine.held) }
    {
        has_number(&self.order, slot.number())
    }
}

// Whether a number is among some.
fn has_number(numbers: &[usize], number: usize) -> bool
    ensures { result ≡ list_any (λ other. other == number) numbers.now }
{
    numbers.iter().any(|other| *other == number)
}
