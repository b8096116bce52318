//! Laws of what agreement gives. They are proved of all runs and of all segment values, and their functions have no code.
ghost use Rattle.thm_alike.specs.Alike.{AttachedMapAlike, AttachedPagesAlike, EndPagesAlike, EndsAlike};
ghost use Rattle.thm_alike.specs.Given.{EndsGiveAttached};
ghost use Rattle.thm_alike.specs.Restored.{AnsweringRestore, CoursesRestore, EndTablesRestore, FailedCoursesRestore, SoundLogsRestore};

/// Each segment that is in use is mapped by every attached participant, at its address, with its page size and its socket, between any two
/// lines of a run and at its end; and so each page of a heap is mapped by all of them as the one segment that it is. Memory of a chunk is given
/// to a participant only where it has attached the chunk. Own.
pub fn alike_law()
    ensures between { AttachedMapAlike }
    ensures at_end { EndsAlike }
    ensures pages_between { AttachedPagesAlike }
    ensures pages { EndPagesAlike }
    ensures attached { EndsGiveAttached }
{}

/// A growth that fails leaves two records and its refusal: the table of the log, and that of a participant whose number is at the Drop, are
/// those from before it, and pools, free slots and the states of all rows are those that the other calls meanwhile would have left. This
/// holds wherever a growth fails among calls that lead on from a sound value, and of each table at the end of a run. Own.
pub fn restoring_law()
    ensures tables { SoundLogsRestore }
    ensures answering { AnsweringRestore }
    ensures states { FailedCoursesRestore }
    ensures along { CoursesRestore }
    ensures at_end { EndTablesRestore }
{}
