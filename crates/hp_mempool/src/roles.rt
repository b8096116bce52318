// The rule of a pool's queue, and the names of its steps. These types are for contracts alone.
use crate::view::View;
use crossbeam_queue::protocol::{Join, Lesson, Outcome, Protocol, Split};
use crossbeam_queue::{Pass, RuledArrayQueue};

pub(crate) type Queue = RuledArrayQueue<u32, View, EachOnce>;

pub(crate) type Token = Pass<u32, View>;

pub(crate) struct EachOnce;

impl Protocol<u32, View> for EachOnce {
    ghost use Rattle.hp_mempool.specs.PoolRule.{HaveEachOnce};
    ghost use Rattle.hp_mempool.specs.Views.{first_view};

    ghost holds = { HaveEachOnce };

    ghost first = { first_view 0 };
}

// The next number of the pool is put into the queue for the first time.
pub(crate) struct Fills;

impl Outcome<u32, View> for Fills {
    ghost use Rattle.std.specs.Prelude.{◌≡◌};
    ghost use Rattle.hp_mempool.specs.Views.{after_fill};

    ghost then = { λ v x w. w ≡ after_fill v };
}

// A new pass gets half of the part of a pass, and no number.
pub(crate) struct Halves;

impl Split<View> for Halves {
    ghost use Rattle.hp_mempool.specs.Views.{after_halving, new_half};

    ghost left = { after_halving };

    ghost right = { new_half };
}

// A pass takes in the part and the numbers of another.
pub(crate) struct Gathers;

impl Join<View> for Gathers {
    ghost use Rattle.hp_mempool.specs.Views.{both_parts, spent_view};

    ghost both = { both_parts };

    ghost spent = { spent_view };
}

// A number goes from the pass to the queue, and what is learned where there is no room.
pub(crate) struct Puts;

impl Outcome<u32, View> for Puts {
    ghost use Rattle.std.specs.Prelude.{◌≡◌};
    ghost use Rattle.hp_mempool.specs.Views.{after_put};

    ghost then = { λ v x w. w ≡ after_put x v };
}

impl Lesson<u32, View> for Puts {
    ghost use Rattle.hp_mempool.specs.Views.{Shows};

    ghost fact = { Shows };
}

// A number goes from the queue to the pass, and what is learned where there is none.
pub(crate) struct Gets;

impl Outcome<u32, View> for Gets {
    ghost use Rattle.std.specs.Prelude.{◌≡◌};
    ghost use Rattle.hp_mempool.specs.Views.{IsFresh, after_get};

    ghost then = { λ v x w. (w ≡ after_get x v) × IsFresh v x };
}

impl Lesson<u32, View> for Gets {
    ghost use Rattle.hp_mempool.specs.Views.{Shows};

    ghost fact = { Shows };
}
