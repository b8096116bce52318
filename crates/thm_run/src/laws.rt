//! Laws of a run of all participants of a hall. They are proved of all runs, and their functions have no code.
ghost use Rattle.thm_run.specs.Apart.{ComeTogether};
ghost use Rattle.thm_run.specs.ByRuns.{EndByRun, RunTogether};
ghost use Rattle.thm_run.specs.Drops.{DropsGoOnByLine, DropsOpen, DropsRest};
ghost use Rattle.thm_run.specs.EndLaws.{EndsSo, FailsByReason, FailsOnce, GoesOnByLine, OpensSoFar, RefusesByReason, RefusesOnce, RestsSoFar};
ghost use Rattle.thm_run.specs.Freed.{ShownGoOnByLine, ShownOpen, ShownRest};
ghost use Rattle.thm_run.specs.Told.{CountedAtLast, NumbersByTold, ToldByPosts};
ghost use Rattle.thm_run.specs.OwnHolds.{AnswersByHolds, HoldsGoOn, NoneByHolds, NoneGrowsForHeld, OutcomesByHolds, SeesByHolds, TurnsByHolds};
ghost use Rattle.thm_run.specs.Watching.{WatchedSoFar};
ghost use Rattle.thm_run.specs.Handing.{CountedGoesOnByLine, CountedOpen, GrantsEndSo, JudgedGoesOnByLine, JudgedOpen, JudgedRests, NamesEndSo, StatisticsEndSo, WatchersEndSo};
ghost use Rattle.thm_run.specs.OwnLines.{AnswersByTold, CallsByLines, HoldsByLines, LineInSeat, NoneElseGrowsForHeld, ServesInSeat, WayByLines};

use hp_segs::log_law;

/// A run of the participants of a hall in one thread goes from line to line: before the first line, by each line that one of them does
/// while the others serve, and where all serve on, each has done what its lines say so far, step by step, and each mapper may fail at the
/// same calls. Own.
pub fn line_law()
    ensures opens { OpensSoFar }
    ensures goes_on { GoesOnByLine }
    ensures rests { RestsSoFar }
{}

/// After the last line a run has come to an end of its workload: each line did what its facts say and was answered so; the histories are
/// the calls of the lines; each outcome is of an ask or a notice of its participant, in turn, and has its cause; pages came and went by the
/// log; and each participant is in the roster, and has its table, as its lines leave it. Own.
pub fn end_law()
    ensures { EndsSo }
{}

/// After the last line a run has come to names that have the changes of its lines and no others: directory, claimed memory, chunks, memzones
/// and marks agree; and each line was handed what those before it leave. Own.
pub fn names_end_law()
    ensures { NamesEndSo }
{}

/// A growth that was refused as a mapping failed was so at a call at which that participant's mapper may fail, and at most one growth was
/// refused by one call. Own.
pub fn failure_law()
    ensures fails { FailsByReason }
    ensures once { FailsOnce }
{}

/// A line that attaches its participant, or a chunk, was refused at a call at which its participant's mapper may fail, and at most one was
/// refused by one call. Own.
pub fn refusal_law()
    ensures fails { RefusesByReason }
    ensures once { RefusesOnce }
{}

/// Between any two lines of such a run there was a number of records by which all that the lines before had given up had gone, and which
/// whatever the later lines see of the log holds. This is so before the first line, after each line that leaves nothing Retiring, and where
/// all serve on. Own.
pub fn drops_law()
    ensures opens { DropsOpen }
    ensures goes_on { DropsGoOnByLine }
    ensures rests { DropsRest }
{}

/// What the lines of such a run show of the log, with the notices of what they gave up, never falls, so each run whose outcome came has a
/// Drop of its own. This holds before the first line, after each line in which none of the lines before gets an outcome late, and where all
/// serve on and none gets one. Own.
pub fn shown_law()
    ensures opens { ShownOpen }
    ensures goes_on { ShownGoOnByLine }
    ensures rests { ShownRest }
{}

/// Participants that each went their way, whatever mailboxes held, between holds of the segment value that make a chain, came together:
/// there is a run of all in turns, each of them a deed of its participant, in which the value goes from hold to hold. Own.
pub fn together_law()
    ensures { ComeTogether }
{}

/// Where participants came together, and each hold gave the segment value back sound, there is a run of all, whatever lay in the mailboxes.
/// So where that began before their first step, what an end has by runs is there: pages that were cut have gone back, growths were asked
/// for, refusals have their causes, and nobody but participants is in the roster. Own.
pub fn runs_law()
    ensures runs { RunTogether }
    ensures ends { EndByRun }
{}

/// Where participants came together, whatever order posts and holds have, each ask and each notice stands in its participant's trace at its
/// number: what is logged of a notice was told by the participant that it names, if what participant 0 fetched was posted by the end. Own.
pub fn numbers_law()
    ensures told { ToldByPosts }
    ensures numbers { NumbersByTold }
    ensures counted { CountedAtLast }
{}

/// What participants' own holds say, whatever others do in between and whatever frames are sent. Records and outcomes come after the others
/// in each hold of those that came together, so what a participant sees of the log never falls; each ask has its outcome, and each grant and
/// each refusal is of an ask that was made, in turn. Where lines made their calls of a heap in one hold of it, none that is answered that there
/// is no memory was granted any; and for a heap in hand no growth is open while the ask of its holder is settled. Own.
pub fn holds_law()
    ensures goes_on { HoldsGoOn }
    ensures seen { SeesByHolds }
    ensures asks { AnswersByHolds }
    ensures outcomes { OutcomesByHolds }
    ensures in_turn { TurnsByHolds }
    ensures none { NoneByHolds }
    ensures alone { NoneGrowsForHeld }
{}

/// What a participant's lines give of that. A line, or servings, from a seat is a piece of its way, which is a path. By its way from its first
/// step it did in its own holds what its lines say, where each ask and each notice took the next number, each ask has its outcome at last,
/// its holds are some of a chain of good values, and while it has a heap in hand nobody else's growth is open for that: which is so where each
/// ask that is not settled is of one who has its heap in hand. Each line made its calls of a heap in one hold of that, where these came by its
/// steps; and each ask has its outcome where that of each notice was told. Own.
pub fn ways_law()
    ensures line { LineInSeat }
    ensures serves { ServesInSeat }
    ensures way { WayByLines }
    ensures holds { HoldsByLines }
    ensures calls { CallsByLines }
    ensures asks { AnswersByTold }
    ensures alone { NoneElseGrowsForHeld }
{}

/// Wherever a workload was run to in one thread, the watchers of each participant are those that its lines left, and each of them knows the
/// rows of its table: what it was told since it was registered turns the bytes of the rows of then into those of now. Own.
pub fn watch_law()
    ensures { WatchedSoFar }
{
    log_law();
}

/// In such a run growths are judged by the validators that the lines before left: none is granted that one of these denies, and where one is
/// denied, the first of them that does is named. So it is before the first line, after each line, and where all serve on. Own.
pub fn judged_law()
    ensures opens { JudgedOpen }
    ensures goes_on { JudgedGoesOnByLine }
    ensures rests { JudgedRests }
{}

/// In such a run statistics that a line reads of a heap are those that the lines before leave of it, before the first line and after each
/// one. Own.
pub fn counted_law()
    ensures opens { CountedOpen }
    ensures goes_on { CountedGoesOnByLine }
{}

/// After the last line statistics that lines read are those of fronts of the histories, and participants leave the watchers of their lines,
/// each told of its table, and each from a table on that had what its participant's lines had been granted. Own.
pub fn handed_law()
    ensures statistics { StatisticsEndSo }
    ensures watched { WatchersEndSo }
    ensures granted { GrantsEndSo }
{
    watch_law();
}
