ghost use Rattle.std.specs.Prelude.{ℕ, ◌<◌, List};
ghost use Rattle.hp_base.specs.Laws.{
  ClassesRise,
  ComputesClass,
  ComputesPlace,
  HasLimits,
  HasNumbers,
  JudgesMemory,
  PlansMapping,
  Rounds,
};
ghost use Rattle.hp_base.specs.declared.plan_entry.PlanEntry.{PlanEntry};

/// Each size has one class, which the computed number is, and the classes rise with the sizes. This law and the
/// others here are proved of all numbers; their functions have no code. Own.
pub fn class_law()
    ensures computed { ComputesClass }
    ensures monotone { ClassesRise }
{}

/// Rounding gives the nearest multiple of the unit on its side, and rounding twice is rounding once. Own.
pub fn rounding_law()
    ensures { (n unit : ℕ) → 0 < unit → Rounds n unit }
{}

/// The place of an accepted request, as it is computed from the end of a range, is the greatest address with room. Own.
pub fn place_law()
    ensures { ComputesPlace }
{}

/// Memory that isn't judged bad is the memory that may be external memory. Own.
pub fn memory_law()
    ensures { JudgesMemory }
{}

/// The constants are the numbers of the rules: a cache line of 64 bytes, a header of 128, the eight page sizes, the
/// greatest of them, the bits of flags that name them, and the bit of a hint. Own.
pub fn numbers_law()
    ensures { HasNumbers }
{}

/// The limits are the numbers of the rules: participants, heaps, sockets, lists, their segments, lines, bytes, counts of
/// a plan, the deadline, and the readings of clocks. Own.
pub fn limits_law()
    ensures { HasLimits }
{}

/// A plan names a mapping call of a participant exactly where it has an entry for it, and then lists it; where it names none it asks
/// the mapper. Own.
pub fn plan_law()
    ensures { (plan : List PlanEntry) (party call : ℕ) → PlansMapping plan party call }
{}
