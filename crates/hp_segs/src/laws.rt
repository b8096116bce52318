//! Laws of the segment value, above the definitions that the calls cite.
ghost use Rattle.hp_segs.specs.Laws.{CallsAppend, CallsKeep, CallsMove, ClaimIsStep, ClaimOwnsAll, DropIsStep, FailedGrowthLeaves, GrantIsStep, MovesAppend, MovesCompose, MovesKeep, MovesStay, MovesWiden, OthersLeave, RetireIsStep, RowsAreGranted};
ghost use Rattle.hp_segs.specs.GrowthLaws.{CallsLeaveArmed, GrantsHavePlace, OpenHasPlace};
ghost use Rattle.hp_segs.specs.Forms.{LogFormLeaves, OwnerFormLeaves, RangeFormLeaves, RosterFormLeaves};
ghost use Rattle.hp_segs.specs.GivenUp.{CallsGiveUp};
ghost use Rattle.hp_segs.specs.GrantedRuns.{ClaimedInOrder};
ghost use Rattle.hp_segs.specs.PlaceLaws.{ListsApart, OverlapIsLowest, SlotsApart};
ghost use Rattle.hp_segs.specs.SettledAsks.{AboveIsUnsettled, ClaimSettles, RefusalSettles, UnclaimedIsUnsettled};

/// A failed growth leaves the table of the log; grants, claims, retirements and drops are steps of the plain machine, and the
/// other calls leave the machine as it was; a claim takes all rows of its grant, and what no growth has open was granted. Own.
pub fn segments_law()
    ensures failed_growth { FailedGrowthLeaves }
    ensures grant { GrantIsStep }
    ensures claim { ClaimIsStep }
    ensures retire { RetireIsStep }
    ensures drop { DropIsStep }
    ensures others { OthersLeave }
    ensures claimed_whole { ClaimOwnsAll }
    ensures granted { RowsAreGranted }
{}

/// Each call under its condition keeps a sound value sound, and is a move; moves compose, and their growth steps add up; and each leaves
/// the pools, and only appends to the records and to the outcomes. Own.
pub fn moves_law()
    ensures calls_keep { CallsKeep }
    ensures calls_move { CallsMove }
    ensures stay { MovesStay }
    ensures compose { MovesCompose }
    ensures keep { MovesKeep }
    ensures widen { MovesWiden }
    ensures calls_append { CallsAppend }
    ensures append { MovesAppend }
{}

/// The run of the open growth and that of each grant have a place for the request of the ask; and where growths are opened of armed asks
/// alone, and no notice is answered while a growth of its participant is open, the open growth stays one of the ask with which its
/// participant is armed, whose number is above the closed one. Own.
pub fn growths_law()
    ensures opened { OpenHasPlace }
    ensures grants { GrantsHavePlace }
    ensures armed { CallsLeaveArmed }
{}

/// Each call leaves what was given up before it, and puts its own run after that, with its heap. Own.
pub fn retired_law()
    ensures calls { CallsGiveUp }
{}

/// The runs that a heap has claimed are, in the order of the log, those of its claimed outcomes, in the order of these. Own.
pub fn claimed_law()
    ensures order { ClaimedInOrder }
{}

/// What each form of a give leaves. Calls that log leave the roster, the segments that heaps have, what these gave up, and external
/// memory. Beside spare, calls on the roster change that alone, calls on external memory that alone, and calls by which heaps take and give
/// up rows the rows' states and what was given up. Own.
pub fn forms_law()
    ensures logs { LogFormLeaves }
    ensures enrols { RosterFormLeaves }
    ensures owns { OwnerFormLeaves }
    ensures ranges { RangeFormLeaves }
{}

/// An ask is settled where it has an outcome other than Stale and, where it was granted, the grant is claimed: a refusal and a claim settle
/// one, and neither an ask whose grant is not claimed nor one above the closed number of its participant is settled. Own.
pub fn settling_law()
    ensures refused { RefusalSettles }
    ensures claimed { ClaimSettles }
    ensures unclaimed { UnclaimedIsUnsettled }
    ensures above { AboveIsUnsettled }
{}

/// The pools' lists share no byte, rows at different slots have different addresses, and the slot that is named as the overlap
/// of external memory is the lowest one. Own.
pub fn places_law()
    ensures lists { ListsApart }
    ensures slots { SlotsApart }
    ensures overlap { OverlapIsLowest }
{}
