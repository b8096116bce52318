//! Laws of lost messages, of mappings that fail, of single servings, and of whole runs. They are proved of all, and their functions have no
//! code.
ghost use Rattle.thm_causes.specs.Counting.{LosesAsPlanned, RepeatsAsPlanned};
ghost use Rattle.thm_causes.specs.Failing.{FailsAtTheGrowth, NotesAFailure};
ghost use Rattle.thm_causes.specs.InTime.{LinesHearInTime, RestsHearInTime};
ghost use Rattle.thm_causes.specs.Nones.{NonesFoundNothing, RefusalsAreExhaustion};
ghost use Rattle.thm_causes.specs.Notices.{ThreadsHearNotices};
ghost use Rattle.thm_causes.specs.Servings.{CoordinatesSo, MembersServeSo};
ghost use Rattle.thm_causes.specs.Threads.{ThreadsEndLevel, ThreadsHaveReasons};

use hp_base::Judge;

/// However many messages of a kind a participant has sent, the plan loses, or doubles, at most as many of them as it has lines that do so.
/// Own.
pub fn counting_law()
    ensures loses { LosesAsPlanned }
    ensures repeats { RepeatsAsPlanned }
{}

/// A mapping that fails for one who has taken in each granted record is one of the open growth's pages, and is noted for that growth,
/// unless one by that call or a later one was logged. Own.
pub fn failing_law()
    ensures fails { FailsAtTheGrowth }
    ensures notes { NotesAFailure }
{}

/// What one serving makes of the segment value, of the mailboxes and of the acknowledged numbers, of a member and of participant 0,
/// whatever judge is asked. Own.
pub fn serving_law<J: Judge>(_judge: &J)
    ensures members { MembersServeSo }
    ensures coordinates { CoordinatesSo (J.denies _judge.now) }
{}

/// In every run in one thread growths are refused as a participant was late, and asks of one are taken back or stale, at most as often as
/// the plan loses SYNCs to it, loses its asks, or repeats its asks and notices. Own.
pub fn timeouts_law()
    ensures { ThreadsHaveReasons }
{}

/// In every run in one thread whose plan loses no message, nothing of what was given up is left at the end, and each attached participant
/// has taken in all records. Own.
pub fn catch_up_law()
    ensures { ThreadsEndLevel }
{}

/// In every run in one thread a participant's notices of runs that it gave up have their outcome, which says that the run has gone back:
/// those without one, and its asks that were taken back, are together at most the lines of the plan that lose its asks or notices. Own.
pub fn notices_law()
    ensures { ThreadsHearNotices }
{}

/// In no run in one thread does an outcome come late: of the asks and notices of the lines before, what had no outcome before a line has
/// none after it, and nothing comes where all serve on after the last one. Own.
pub fn in_time_law()
    ensures lines { LinesHearInTime }
    ensures rests { RestsHearInTime }
{}

/// A line that allocates and is answered that there is no memory found no address in its heaps and was granted no pages; and where late and
/// taken-back outcomes have their reasons in the plan, the plan loses no message and no mapping failed, asks were refused for want of a
/// list, of pages, of slots or of a place, or by a validator. Own.
pub fn none_law()
    ensures nothing_found { NonesFoundNothing }
    ensures exhausted { RefusalsAreExhaustion }
{}
