use crate::reader::Reader;
use std::marker::Model;

/// A pass by which one reads the statistics of every heap. It may go to another thread. Own.
#[derive(Drop)]
pub struct StatPass {
    // One for each heap.
    pub(crate) readers: Vec<Reader>,
}

impl Model for StatPass {
    ghost use Rattle.hp_stats.specs.StatViews.{PassView};

    ghost Value = { PassView };

    ghost use Rattle.hp_stats.specs.PassInside.{pass_view};

    ghost view = { pass_view };
}
