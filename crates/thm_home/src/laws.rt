//! The law of what threads leave. It is proved of all runs, and its function has no code.
ghost use Rattle.thm_home.specs.EndOfThreads.{EndOfThreads, HandedOnThreads, HomeOfThreads, MailOfThreads};

use thm_together::watching_law;

/// Where participants on threads leave something, what each fetched was posted to it by them, in order and once; all came home, each from
/// the view that it brought; and that is all that a run has come to, whatever order their steps came in: an end of the workload, why
/// mappings failed, what agreement gives, that lines without memory found none, and what growths that failed restore. Own.
pub fn home_law()
    ensures mail { MailOfThreads }
    ensures home { HomeOfThreads }
    ensures end { EndOfThreads }
{}

/// With that end each participant has the watchers that its lines left, each told of its table, and statistics that lines were answered are
/// those of fronts of the histories, with the participant's own calls. Own.
pub fn handed_end_law()
    ensures { HandedOnThreads }
{
    watching_law();
}
