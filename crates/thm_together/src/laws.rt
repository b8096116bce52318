//! Laws of what participants on threads leave. They are proved of all runs, and their functions have no code.
ghost use Rattle.thm_together.specs.CameHome.{EndWhereHome, LedWhereHome};
ghost use Rattle.thm_together.specs.Failing.{FailsOnceWhereHome, FailsWhereHome, RefusesOnceWhereHome, RefusesWhereHome};
ghost use Rattle.thm_together.specs.OnItsWay.{BeginsItsWay, DoesALineOnItsWay, ServesOnItsWay};
ghost use Rattle.thm_together.specs.Watched.{WatchedWhereHome};

use hp_segs::log_law;

/// A participant on a thread of its own goes its way by its lines: from its first seat on, where it serves, and where it does a line and then
/// tells that it is done. Own.
pub fn going_law()
    ensures begins { BeginsItsWay }
    ensures serves { ServesOnItsWay }
    ensures does_line { DoesALineOnItsWay }
{}

/// Where each participant went its way by its own lines, and the board kept what it took and gave in one order, what is left is an end of the
/// workload, whatever order the steps of all came in; and the first segment value led to the last one by calls, each under its condition. Own.
pub fn threads_law()
    ensures end { EndWhereHome }
    ensures led { LedWhereHome }
{}

/// A growth that was refused as a mapping failed was so at a call at which the mapper may answer so with which that participant began, and at
/// most one by one call; and so were lines that attach a participant or a chunk. Own.
pub fn failing_law()
    ensures fails { FailsWhereHome }
    ensures once { FailsOnceWhereHome }
    ensures refuses { RefusesWhereHome }
    ensures refuses_once { RefusesOnceWhereHome }
{}

/// What participants were told that came home are the watchers of their lines, in the order of registration, each told of its table since then.
/// Own.
pub fn watching_law()
    ensures { WatchedWhereHome }
{
    log_law();
}
