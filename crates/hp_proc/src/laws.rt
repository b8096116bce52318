//! Laws of the definitions. They are proved of all values, and their functions have no code.
ghost use Rattle.std.specs.Prelude.{◌≡◌, List, Option, length, ℕ};
ghost use Rattle.hp_base.specs.declared.chunk.Chunk.{Chunk};
ghost use Rattle.hp_base.specs.declared.limits.TheConstants.{MAX_HEAPS};
ghost use Rattle.hp_base.specs.declared.pool_line.PoolLine.{PoolLine};
ghost use Rattle.hp_heap.specs.PlainHeap.{PlainHeap};
ghost use Rattle.hp_log.specs.declared.log_record.LogRecord.{LogRecord};
ghost use Rattle.hp_segs.specs.declared.outcome.AskLog.{AskLog};
ghost use Rattle.hp_proc.specs.Doing.{Doing};
ghost use Rattle.hp_proc.specs.Laws.{AnswersInTurn, GoesOnNumbered, LeadsOn, StaysAnswered};
ghost use Rattle.hp_script.specs.declared.options.Options.{Options};
ghost use Rattle.hp_zone.specs.Directory.{PlainDirectory};
ghost use Rattle.hp_zone.specs.declared.zone.Zone.{Zone};
ghost use Rattle.hp_proc.specs.SharedNames.{SharedNames};
ghost use Rattle.hp_proc.specs.VerbLaws.{ClaimsAgree, DataAgree, GoesOnFrom, HandedSockets, LookingAgrees, MakingAgrees, MeaningsAgree, MembersAgree, NamesFollow, PlansAgree, ReleasesAgree, ReservationsAgree};

/// The outcome of an ask that a segment value has stays, whatever is logged after it. So what was said of a line stays true in
/// every later step. Own.
pub fn answer_law()
    ensures { (log : List LogRecord) (asks : List AskLog) → StaysAnswered log asks }
{}

/// Where outcomes come in turn, as they do at the end of a workload, the first grant or refusal of an ask is the only outcome of its
/// number but stale ones. Own.
pub fn outcomes_law()
    ensures { (log : List LogRecord) (asks : List AskLog) → AnswersInTurn log asks }
{}

/// Traces through a line's tree join: the line may be followed step by step. Own.
pub fn leading_law()
    ensures { (doing : Doing) → LeadsOn doing }
{}

/// The entries of a participant's calls are numbered on from line to line. Own.
pub fn numbering_law()
    ensures { (who heap : ℕ) → GoesOnNumbered who heap }
{}

/// What the trees of lines judge is what the calls of `hp_zone` and `hp_external` judge: why a memzone is refused, which one has a name, where
/// a heap is made, what the name of an external heap means, which data or which participant stands against a call on a chunk, which
/// list external memory would get, and how it is claimed and given back. Own.
pub fn judging_law()
    ensures reservations { (zones : List Zone) (text : List ℕ) (len : ℕ) (options : Options) → ReservationsAgree zones text len options }
    ensures memzones { (zones : List Zone) (text : List ℕ) → LookingAgrees zones text }
    ensures making { (text : List ℕ) (plain : PlainDirectory) → length plain.heaps ≡ MAX_HEAPS → MakingAgrees text plain }
    ensures meanings { (text : List ℕ) (plain : PlainDirectory) → length plain.heaps ≡ MAX_HEAPS → MeaningsAgree text plain }
    ensures addresses { (by : Option ℕ) (chunk : Chunk) (heap : PlainHeap) → DataAgree by chunk heap }
    ensures members { (chunk : Chunk) → MembersAgree chunk }
    ensures plans { PlansAgree }
    ensures claims { ClaimsAgree × ReleasesAgree }
{}

/// Each change of the names leaves what it says: of the directory, of the memzones, and of the external memory that is claimed. And in whatever
/// names a line is handed each socket has its heap. Own.
pub fn names_law()
    ensures follow { (pools : List PoolLine) (names : SharedNames) → NamesFollow pools names }
    ensures sockets { HandedSockets }
{}

/// What leads to the end of a line's tree leads in the tree that goes on from there, as a reservation does from an allocation. Own.
pub fn continuing_law()
    ensures { GoesOnFrom }
{}
