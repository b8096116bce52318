use crate::roles::Token;
use std::marker::Model;

/// The pen of a heap: by it alone the heap's statistics are published. It may go to another thread. Own.
#[derive(Drop)]
pub struct StatPen {
    pub(crate) token: Token,
}

impl Model for StatPen {
    ghost use Rattle.hp_stats.specs.StatViews.{PenView};

    ghost Value = { PenView };

    ghost use Rattle.hp_stats.specs.PenInside.{IsPen, pen_view};

    ghost view = { pen_view };

    ghost invariant = { IsPen };
}
