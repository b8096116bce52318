ghost use Rattle.std.specs.Prelude.{◌≡◌};

use crate::roles::Token;
use std::marker::Model;

/// A sender's pass to a ring. By it alone the sender puts bulks there. It may go to another thread. After a producer of rte_ring.
#[derive(Drop)]
pub struct SendPass {
    pub(crate) who: u8,
    pub(crate) token: Token,
}

impl Model for SendPass {
    ghost use Rattle.hp_ring.specs.PassViews.{SendView};

    ghost Value = { SendView };

    ghost use Rattle.hp_ring.specs.PassInside.{send_view, IsSendPass};

    ghost view = { send_view };

    ghost invariant = { IsSendPass };
}
