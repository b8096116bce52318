use crate::roles::Token;
use std::marker::Model;

/// A participant's pass to a mailbox. By it alone the participant posts there, and the owner fetches. It may go to another thread. Own.
#[derive(Drop)]
pub struct Pass {
    pub(crate) who: u8,
    pub(crate) token: Token,
}

impl Model for Pass {
    ghost use Rattle.hp_mail.specs.PassView.{PassView};

    ghost Value = { PassView };

    ghost use Rattle.hp_mail.specs.PassInside.{pass_view, IsPass};

    ghost view = { pass_view };

    ghost invariant = { IsPass };
}
