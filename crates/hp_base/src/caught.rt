use crate::map_answer::MapAnswer;
use crate::row::Row;

/// How catching up with the log of segments, or attaching a chunk, ended. `call` is the mapper's number of the mapping
/// call that failed, from 1. Own; it stands for what eal_memalloc_sync_with_primary answers.
#[derive(Clone, Copy, PartialEq, Eq)]
pub enum Caught {
    /// All rows are mapped.
    Done,
    /// The mapper refused this row.
    Refused { row: Row, call: u64 },
    /// The mapper answered another place than the row's own.
    Elsewhere { row: Row, call: u64, got: MapAnswer },
}
