//! External memory beside the table.
ghost use Rattle.std.specs.Prelude.{◌≡◌};
ghost use Rattle.hp_base.specs.Streams.{CountsFault};
ghost use Rattle.hp_maps.specs.MapsView.{IsMapped};

use crate::catching::map_behind;
use crate::chunks::{drop_chunk, run_of_chunk};
use crate::local_maps::LocalMaps;
use crate::new_rows::push_undropped;
use hp_base::{Caught, Chunk, Mapper};

impl<M: Mapper> LocalMaps<M> {
    ghost use Rattle.hp_maps.specs.Catching.{HasAnswered, HasReason, rows_after, was_refused};
    ghost use Rattle.hp_maps.specs.Chunks.{CanAttach, rows_beside, rows_of_chunk};

    /// Maps the pages of a chunk of external memory, by rising address. Where the mapper refuses one, or maps it elsewhere,
    /// they are unmapped again. After rte_malloc_heap_memory_attach.
    pub fn attach_chunk(&mut self, chunk: &Chunk) -> Caught
        requires { CanAttach self.old chunk.now }
        ensures rows { self.new.rows ≡ rows_after self.old.rows (rows_of_chunk chunk.now) result }
        ensures answered { HasAnswered (rows_of_chunk chunk.now) self.old.answers self.new.answers result }
        ensures number { self.new.number ≡ self.old.number }
        ensures capacity { self.new.capacity ≡ self.old.capacity }
        ensures cause { CountsFault self.old.faults self.new.faults (was_refused result) }
        ensures may_fail { self.new.may_fail ≡ self.old.may_fail }
        ensures reason { HasReason self.old.may_fail result }
        ensures mapped { IsMapped self.new }
    {
        let run = run_of_chunk(chunk);
        let start = self.rows.len();
        let _ = push_undropped(&mut self.rows, 0, &run, &[], 0);
        map_behind(&mut self.mapper, &mut self.rows, start, &mut self.calls)
    }

    /// Unmaps the pages of a chunk. After rte_malloc_heap_memory_detach.
    pub fn detach_chunk(&mut self, chunk: &Chunk)
        ensures rows { self.new.rows ≡ rows_beside chunk.now self.old.rows }
        ensures answers { self.new.answers ≡ self.old.answers }
        ensures number { self.new.number ≡ self.old.number }
        ensures capacity { self.new.capacity ≡ self.old.capacity }
        ensures faults { self.new.faults ≡ self.old.faults }
        ensures may_fail { self.new.may_fail ≡ self.old.may_fail }
        ensures mapped { IsMapped self.new }
    {
        drop_chunk(&mut self.mapper, &mut self.rows, chunk);
    }
}
