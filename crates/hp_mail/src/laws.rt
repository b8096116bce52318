//! A law of mailboxes. It is proved of all passes, and its function has no code.
ghost use Rattle.hp_mail.specs.MailLaws.{AllWerePosted, FetchedAreTheFirst, FetchedWerePosted};

/// Where an owner and a sender have met, the frames that were fetched of the sender are the first ones that it posted. Where an owner has
/// met itself and all others, nobody else's frame was fetched. Own.
pub fn fetched_law()
    ensures posted { FetchedWerePosted }
    ensures first { FetchedAreTheFirst }
    ensures all { AllWerePosted }
{}
