//! A law of a hall's course. It is proved of all courses, and its function has no code.
ghost use Rattle.hp_plain.specs.CourseLaws.{IdleAddNoEntries, IdleStayInPlace, RangesStay, SoloStepsAreItsOwn, UndeclaredDoNothing, ValuesStaySound};

/// On the course of a hall of plain values the declared participants alone make steps. Who makes none has no entry more in any heap, is
/// armed with the ask of before, and is in the roster where it was; external memory stays where nobody gives the segment value with the
/// names in hand; and where the opening values are sound and armed, each value that is taken or given is too. Own.
pub fn course_law()
    ensures undeclared { UndeclaredDoNothing }
    ensures solo { SoloStepsAreItsOwn }
    ensures entries { IdleAddNoEntries }
    ensures places { IdleStayInPlace }
    ensures ranges { RangesStay }
    ensures sound { ValuesStaySound }
{}
