// The rule of a mailbox's queue, and the names of its steps. These types are for contracts alone.
use crate::letter::Letter;
use crate::view::View;
use crossbeam_queue::protocol::{Join, Lesson, Outcome, Protocol, Split};
use crossbeam_queue::{Pass, RuledArrayQueue};

pub(crate) type Queue = RuledArrayQueue<Letter, View, InOrder>;

pub(crate) type Token = Pass<Letter, View>;

pub(crate) struct InOrder;

impl Protocol<Letter, View> for InOrder {
    ghost use Rattle.hp_mail.specs.MailRule.{Delivers};
    ghost use Rattle.hp_mail.specs.Views.{whole_view};

    ghost holds = { Delivers };

    ghost first = { whole_view };
}

// The next participant gets a pass.
pub(crate) struct Deal;

impl Split<View> for Deal {
    ghost use Rattle.hp_mail.specs.Views.{after_deal, dealt_view};

    ghost left = { after_deal };

    ghost right = { dealt_view };
}

// The owner gets a pass, and fetches with it.
pub(crate) struct DealOwner;

impl Split<View> for DealOwner {
    ghost use Rattle.hp_mail.specs.Views.{after_deal_owner, owner_view};

    ghost left = { after_deal_owner };

    ghost right = { owner_view };
}

// The first sender of a pass goes to another pass.
pub(crate) struct Lend;

impl Split<View> for Lend {
    ghost use Rattle.hp_mail.specs.Views.{first_sender, other_senders};

    ghost left = { other_senders };

    ghost right = { first_sender };
}

impl Join<View> for Lend {
    ghost use Rattle.hp_mail.specs.Views.{both_senders, empty_view};

    ghost both = { both_senders };

    ghost spent = { empty_view };
}

// The owner's pass takes over the dealing when all passes are dealt.
pub(crate) struct TakeOver;

impl Join<View> for TakeOver {
    ghost use Rattle.hp_mail.specs.Views.{empty_view, with_dealing};

    ghost both = { with_dealing };

    ghost spent = { empty_view };
}

// A letter is put after all others, and what is learned where there is no room.
pub(crate) struct Puts;

impl Outcome<Letter, View> for Puts {
    ghost use Rattle.std.specs.Prelude.{◌≡◌};
    ghost use Rattle.hp_mail.specs.Views.{after_put};

    ghost then = { λ v x w. w ≡ after_put x.frame v };
}

impl Lesson<Letter, View> for Puts {
    ghost use Rattle.hp_mail.specs.Views.{Shows};

    ghost fact = { Shows };
}

// The first letter is taken out, and what is learned where there is none.
pub(crate) struct Gets;

impl Outcome<Letter, View> for Gets {
    ghost use Rattle.std.specs.Prelude.{◌≡◌};
    ghost use Rattle.hp_mail.specs.Views.{after_get};

    ghost then = { λ v x w. w ≡ after_get x v };
}

impl Lesson<Letter, View> for Gets {
    ghost use Rattle.hp_mail.specs.Views.{Shows};

    ghost fact = { Shows };
}
