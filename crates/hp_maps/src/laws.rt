//! Laws of the definitions. They are proved of all values, and their functions have no code.
ghost use Rattle.std.specs.Prelude.{List, Option, ℕ};
ghost use Rattle.hp_base.specs.Mapping.{FailingCall};
ghost use Rattle.hp_base.specs.declared.caught.Caught.{Caught};
ghost use Rattle.hp_base.specs.declared.event.EventKind.{EventKind};
ghost use Rattle.hp_base.specs.declared.plan_entry.PlanEntry.{PlanEntry};
ghost use Rattle.hp_base.specs.declared.row.Row.{Row};
ghost use Rattle.hp_base.specs.declared.row.Run.{Run};
ghost use Rattle.hp_log.specs.declared.log_record.LogRecord.{LogRecord};
ghost use Rattle.hp_maps.specs.Events.{joins_by};
ghost use Rattle.hp_maps.specs.Knowing.{ChunksAreNoNews, NewKnows};
ghost use Rattle.hp_maps.specs.PlannedView.{FailsByPlan};
ghost use Rattle.hp_maps.specs.Ready.{
  AttachedBeside,
  DetachedBeside,
  IsReadyToAttach,
  IsReadyToCatchUp,
  NewIsReady,
  StaysReady,
  TellsBytes,
  TellsOneARecord,
  TellsTheEnd,
};
ghost use Rattle.hp_maps.specs.Laws.{
  BringsNothing,
  FallIntoStretches,
  HasOneRowASlot,
  IsApartAt,
  IsTakenInTurn,
  StaysMapped,
  TellsFew,
};

/// A table that has taken in some records becomes that of more of them by what these drop and bring, whatever log it is. Own.
pub fn table_law()
    ensures { (records : List LogRecord) → IsTakenInTurn records }
{}

/// A growth that failed maps nothing where both of its records are taken in at once. Own.
pub fn failed_growth_law()
    ensures { (run : Run) → BringsNothing run }
{}

/// A catch-up tells no more events than the runs of its records have pages. Own.
pub fn few_events_law()
    ensures { (rows : List Row) (n : ℕ) (records : List LogRecord) (caught : Caught) → TellsFew rows n records caught }
{}

/// Whatever calls of a mapper are made: a row that is held at its own place after them, and that place is none of their
/// answers, was unmapped by none of them. So a catch-up never unmaps a row that no new record drops, since its answers are
/// the own places of new rows. Own.
pub fn stays_mapped_law()
    ensures { (row : Row) → StaysMapped row }
{}

/// Over a mapper that is steady, a mapper with a plan may fail exactly at the mapping calls of its participant that the plan names. Own.
pub fn planned_law()
    ensures { (plan : List PlanEntry) (party : ℕ) (other_may_fail : Option (List FailingCall)) → FailsByPlan plan party other_may_fail }
{}

/// In a well-formed log no slot has two rows. Own.
pub fn slot_law()
    ensures { (records : List LogRecord) → HasOneRowASlot records }
{}

/// The table of a well-formed log has no two rows of one address, where rows of one address are at one slot, as they are
/// where segment lists lie apart. It is a part of the condition of catching up. Own.
pub fn apart_law()
    ensures { (records : List LogRecord) (n : ℕ) → IsApartAt records n }
{}

/// Rows are told by their greatest stretches: none is left out or told twice, and no two events touch that could be one. Own.
pub fn stretch_law()
    ensures { (kind : EventKind) (rows : List Row) → FallIntoStretches (joins_by kind) rows }
{}

/// What is told to a listener is what becomes of the bytes of the log's rows, where a table is ready: the events of a catch-up,
/// however it ended, and those of the end turn the bytes before into the bytes after, one event after the other. Nothing is
/// freed that is not there, and nothing comes that is there already. Own.
pub fn bytes_law()
    ensures catch_up { TellsBytes }
    ensures end { TellsTheEnd }
{}

/// Who begins to listen knows the rows that there are; and chunks that are attached or detached are no news to anybody.
/// Own.
pub fn known_law()
    ensures new { NewKnows }
    ensures chunks { ChunksAreNoNews }
{}

/// What a participant knows gives the conditions of its calls, where the log is one of segment lists that lie apart. It knows
/// this of a new table, and still after each catch-up. It may catch up, which tells at most one event for each record, so that
/// room for twice the new records is enough; and it may attach a chunk that lies beside the lists. Own.
pub fn ready_law()
    ensures new { NewIsReady }
    ensures stays { StaysReady }
    ensures catch_up { IsReadyToCatchUp }
    ensures spare { TellsOneARecord }
    ensures attach { IsReadyToAttach }
    ensures attached { AttachedBeside }
    ensures detached { DetachedBeside }
{}
