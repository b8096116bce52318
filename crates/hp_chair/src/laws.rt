//! Laws of mailboxes over threads. Their functions have no code.
ghost use Rattle.hp_chair.specs.FoundByCalls.{EmptyWhereNothingCame, FullWhereNothingWent};
ghost use Rattle.hp_chair.specs.MailAtHome.{EachFrameWasPosted, FramesCameInOrder};

/// Where a call of a hall with one seat fetched nothing at one of its steps, the participant had fetched then all that it had posted to
/// itself. Of frames of others this says nothing. Own.
pub fn empty_law()
    ensures { EmptyWhereNothingCame }
{}

/// Where a call of a hall with one seat posted a frame to its own participant at one of its steps, the answer was Full only where as many
/// letters as there is room for went with what that had posted there and fetched. Of a post to another this says nothing, as letters of
/// others may have stood there. It came twice only where that is planned. Own.
pub fn full_law()
    ensures { FullWhereNothingWent }
{}

/// Where all participants have come home, and at one's mailbox its own pass has met itself and those of the others, each frame that it
/// fetched was posted to it by one of them, and those of each came in its order. Own.
pub fn came_law()
    ensures in_order { FramesCameInOrder }
    ensures posted { EachFrameWasPosted }
{}
