// The rule of the table, and the names of its steps. These types are for contracts alone.
use crate::opening::Opening;
use crate::view::View;
use atomic_table::{Join, Play, Seat, Shared, Split, Table, TableRule};
use hp_hall::Kept;
use std::alloc::Global;

// A slot is at home with its value, or out with the seat that holds it. The value is moved out at once, and moved back right
// before the slot goes home.
pub(crate) type Slots = Table<Option<Kept>, View, Opening, Rule, Global>;

pub(crate) type SharedSlots = Shared<Option<Kept>, View, Opening, Rule>;

pub(crate) type Token = Seat<Option<Kept>, View>;

pub(crate) struct Rule;

impl TableRule<Option<Kept>, View, Opening> for Rule {
    ghost use Rattle.hp_board.specs.BoardRule.{IsBoard};
    ghost use Rattle.hp_board.specs.Parts.{whole_view};

    ghost holds = { IsBoard };

    ghost first = { whole_view };
}

// A try of a lock word.
pub(crate) struct Try;

impl Play<Option<Kept>, View> for Try {
    ghost use Rattle.hp_board.specs.Steps.{Tries};

    ghost then = { Tries };
}

// A lock word becomes 0.
pub(crate) struct Give;

impl Play<Option<Kept>, View> for Give {
    ghost use Rattle.hp_board.specs.Steps.{Gave};

    ghost then = { Gave };
}

// An acknowledgement word becomes the number of records that are acknowledged.
pub(crate) struct Ack;

impl Play<Option<Kept>, View> for Ack {
    ghost use Rattle.hp_board.specs.Steps.{Acks};

    ghost then = { Acks };
}

// One's own acknowledgement word is loaded, when rows were unmapped.
pub(crate) struct Unmap;

impl Play<Option<Kept>, View> for Unmap {
    ghost use Rattle.hp_board.specs.Steps.{Unmaps};

    ghost then = { Unmaps };
}

// A participant's acknowledgement word is loaded.
pub(crate) struct Load;

impl Play<Option<Kept>, View> for Load {
    ghost use Rattle.hp_board.specs.Steps.{Loads};

    ghost then = { Loads };
}

// A done word becomes the number of lines that are done.
pub(crate) struct Tell;

impl Play<Option<Kept>, View> for Tell {
    ghost use Rattle.hp_board.specs.Steps.{Tells};

    ghost then = { Tells };
}

// A participant's done word is loaded.
pub(crate) struct LookUp;

impl Play<Option<Kept>, View> for LookUp {
    ghost use Rattle.hp_board.specs.Steps.{LooksUp};

    ghost then = { LooksUp };
}

// The first part of a view goes to a seat of its own.
pub(crate) struct Deal;

impl Split<View> for Deal {
    ghost use Rattle.hp_board.specs.Parts.{first_part, other_parts};

    ghost left = { other_parts };

    ghost right = { first_part };
}

// A seat takes in the parts of another.
pub(crate) struct Gather;

impl Join<View> for Gather {
    ghost use Rattle.hp_board.specs.Parts.{both_parts, spent_view};

    ghost both = { both_parts };

    ghost spent = { spent_view };
}
