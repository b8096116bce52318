use crate::roles::Token;
use std::marker::Model;

/// The taker's pass to a ring, by which alone bulks are taken there. It may go to another thread. After the consumer of rte_ring.
#[derive(Drop)]
pub struct TakePass {
    pub(crate) token: Token,
}

impl Model for TakePass {
    ghost use Rattle.hp_ring.specs.PassViews.{TakeView};

    ghost Value = { TakeView };

    ghost use Rattle.hp_ring.specs.PassInside.{take_view, IsTakePass};

    ghost view = { take_view };

    ghost invariant = { IsTakePass };
}
