//! Laws of the coordinator's moves, above the definitions that its step cites.
ghost use Rattle.hp_core.specs.Giving.{CatchesNote, StepsAnswerArmed, StepsGive, StepsLeaveArmed};
ghost use Rattle.hp_core.specs.Laws.{
  AddsExactly,
  DenialsAreJudged,
  JudgedOfPlans,
  LatesAreLate,
  MovesAreMoved,
  MovesAreSteps,
  PlansAreJudged,
};
ghost use Rattle.hp_core.specs.Tied.{MovesTie, NoneIsGone, StepsTie};

/// Each move of the coordinator takes the plain machine of a sound segment value to itself, through the drops, or through
/// one growth, which is that of the open growth's ask; and it is by calls that log, at most one of which opens or grants a
/// growth. A growth that is cancelled as Late has a late member and no noted failure. A started ask gets an Add exactly
/// where a run is planned after the drops and no validator denies it; it is refused as Denied only by the validator that
/// the judge names. The judge is asked of each such run, be it of an ask that comes or of a held one that a poll starts, and of
/// nothing else. Own.
pub fn core_law()
    ensures steps { MovesAreSteps }
    ensures moved { MovesAreMoved }
    ensures late { LatesAreLate }
    ensures adds { AddsExactly }
    ensures denied { DenialsAreJudged }
    ensures judged { JudgedOfPlans }
    ensures asked { PlansAreJudged }
{}

/// The ask of a round under way is that of the open growth, or has an outcome: each step keeps this tie of the coordinator
/// and its segment value, and each call of the value that others make keeps it too. While it holds, each round ends with
/// an answer. Own.
pub fn tie_law()
    ensures steps { StepsTie }
    ensures moves { MovesTie }
    ensures none_gone { NoneIsGone }
{}

/// What others hold the giver of a segment value to. A member that has caught up, or failed to, only notes a failure. A step
/// of the coordinator arms nobody and leaves the roster; and each member has acknowledged what it grants, by the numbers
/// of the poll, or as participant 0, alone, that has mapped all records. The open growth stays that of the ask with which
/// its participant is armed, and each outcome that a step logs beside its ask is of such an ask. Own.
pub fn giving_law()
    ensures caught { CatchesNote }
    ensures steps { StepsGive }
    ensures armed { StepsLeaveArmed }
    ensures answered { StepsAnswerArmed }
{}
