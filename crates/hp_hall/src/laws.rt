//! Laws of what a segment value has for a heap, and of what calls leave of a heap. They are proved of all values, and their functions have no
//! code.
ghost use Rattle.hp_hall.specs.Standings.{LogCallsLeave, NotesLeave, OwnerCallsLeave, RangeCallsLeave, RosterCallsLeave};
ghost use Rattle.hp_hall.specs.Standings.{ArmKeeps, RestCanBeClaimed, WithdrawKeeps};
ghost use Rattle.hp_hall.specs.Standings.{ClaimBrings, ClaimLeavesOthers, ClaimPuts, ClaimedCanGrow, RetireLeavesOthers, RetireTakesPages, RetireTakesRows};
ghost use Rattle.hp_hall.specs.Naming.{CallsLeaveNames, CallsMarkAlone};
ghost use Rattle.hp_hall.specs.AskLaws.{HeldIsAlone, KnownIsSettled, LogCallsSettle, LogGivesLeave, OwnerCallsSettle, OwnerGivesLeave, RangeCallsSettle, RangeGivesLeave, RosterCallsSettle, RosterGivesLeave, SettledIsClaimed};

/// What a segment value has for a heap, its own segments and the grants that it claimed, is changed by claims and by what is given up
/// alone; and the asks with which participants are armed stay where no call logs or arms. Own.
pub fn standing_law()
    ensures logged { LogCallsLeave }
    ensures roster { RosterCallsLeave }
    ensures ranges { RangeCallsLeave }
    ensures noted { NotesLeave }
    ensures owners { OwnerCallsLeave }
{}

/// The open growth and the kept asks stay those with which participants are armed where an ask above the closed number is armed, and
/// where one is withdrawn; and a heap's grant that it has not claimed can be claimed. Own.
pub fn arming_law()
    ensures arm { ArmKeeps }
    ensures withdraw { WithdrawKeeps }
    ensures rest { RestCanBeClaimed }
{}

/// A claim and what is given up change what the segment value has for one heap: a claim puts its grant and run after those that the heap
/// has claimed, and a run that is given up comes after those that the heap gave up. And the heap has the pages of its segments still, where
/// it takes in the run that is claimed, as it may, and where it cuts the run that is given up. Own.
pub fn holding_law()
    ensures claim_others { ClaimLeavesOthers }
    ensures claim_puts { ClaimPuts }
    ensures claim { ClaimBrings }
    ensures claimed_run { ClaimedCanGrow }
    ensures retire_others { RetireLeavesOthers }
    ensures retire_rows { RetireTakesRows }
    ensures retire { RetireTakesPages }
{}

/// An ask that is settled stays so under each form of a give. What a participant knows to be settled is settled, and what was granted to an
/// armed ask that is settled its heap has claimed. Own.
pub fn settled_law()
    ensures logs { LogCallsSettle }
    ensures enrols { RosterCallsSettle }
    ensures owns { OwnerCallsSettle }
    ensures ranges { RangeCallsSettle }
    ensures known { KnownIsSettled }
    ensures claimed { SettledIsClaimed }
{}

/// Runs that no heap has claimed yet stay those of armed asks, and the last of their heaps, under each form of a give; and they are alone
/// for their heaps, since an asker has its heap in hand as long as its ask is not settled. Own.
pub fn pending_law()
    ensures logs { LogGivesLeave }
    ensures enrols { RosterGivesLeave }
    ensures owns { OwnerGivesLeave }
    ensures ranges { RangeGivesLeave }
    ensures alone { HeldIsAlone }
{}

/// A heap's call that sets or clears no name, adds or removes no chunk and is not of a memzone leaves all that the names speak of, and the
/// marks of all but its caller; and every call of a heap leaves those. Own.
pub fn naming_law()
    ensures leaves { CallsLeaveNames }
    ensures marks { CallsMarkAlone }
{}
