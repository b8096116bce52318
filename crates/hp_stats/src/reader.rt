use crate::roles::Token;
use std::marker::Model;

// What reads the cell of one heap.
#[derive(Drop)]
pub(crate) struct Reader {
    pub(crate) token: Token,
}

impl Model for Reader {
    ghost use Rattle.hp_stats.specs.StatViews.{ReaderView};

    ghost Value = { ReaderView };

    ghost use Rattle.hp_stats.specs.ReaderInside.{reader_view};

    ghost view = { reader_view };
}
