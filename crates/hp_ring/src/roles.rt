// The rule of a ring's queue, and the names of its steps. These types are for contracts alone.
use crate::bulk::Bulk;
use crate::view::View;
use crossbeam_queue::protocol::{Join, Lesson, Outcome, Protocol, Split};
use crossbeam_queue::{Pass, RuledArrayQueue};

pub(crate) type Queue = RuledArrayQueue<Bulk, View, InOrder>;

pub(crate) type Token = Pass<Bulk, View>;

pub(crate) struct InOrder;

impl Protocol<Bulk, View> for InOrder {
    ghost use Rattle.hp_ring.specs.RingRule.{AreInOrder};
    ghost use Rattle.hp_ring.specs.Views.{whole_view};

    ghost holds = { AreInOrder };

    ghost first = { whole_view };
}

// The next sender gets a pass.
pub(crate) struct Deals;

impl Split<View> for Deals {
    ghost use Rattle.hp_ring.specs.Views.{after_deal, dealt_view};

    ghost left = { after_deal };

    ghost right = { dealt_view };
}

// The first sender of a pass goes to another pass, and a pass takes in the senders of another.
pub(crate) struct Lends;

impl Split<View> for Lends {
    ghost use Rattle.hp_ring.specs.Views.{first_sender, other_senders};

    ghost left = { other_senders };

    ghost right = { first_sender };
}

impl Join<View> for Lends {
    ghost use Rattle.hp_ring.specs.Views.{both_senders, empty_view};

    ghost both = { both_senders };

    ghost spent = { empty_view };
}

// A bulk is put after all others, and what is learned where there is no room.
pub(crate) struct Puts;

impl Outcome<Bulk, View> for Puts {
    ghost use Rattle.std.specs.Prelude.{◌≡◌};
    ghost use Rattle.hp_ring.specs.Views.{after_put};

    ghost then = { λ v x w. w ≡ after_put x v };
}

impl Lesson<Bulk, View> for Puts {
    ghost use Rattle.hp_ring.specs.Views.{Shows};

    ghost fact = { Shows };
}

// The first bulk is taken out, and what is learned where there is none.
pub(crate) struct Takes;

impl Outcome<Bulk, View> for Takes {
    ghost use Rattle.std.specs.Prelude.{◌≡◌};
    ghost use Rattle.hp_ring.specs.Views.{after_take};

    ghost then = { λ v x w. w ≡ after_take x v };
}

impl Lesson<Bulk, View> for Takes {
    ghost use Rattle.hp_ring.specs.Views.{Shows};

    ghost fact = { Shows };
}
