//! Unmapping all that is mapped.
ghost use Rattle.std.specs.Prelude.{◌≡◌, ◌+◌, ◌≤◌, ℕ, List, [], length};
ghost use Rattle.hp_log.specs.declared.log_record.LogRecord.{LogRecord};
ghost use Rattle.hp_maps.specs.MapsView.{IsMapped, chunk_rows};

use crate::local_maps::LocalMaps;
use crate::mapping::unmap_rows;
use crate::telling::tell_rows;
use hp_base::{EventKind, Mapper, Tell};

impl<M: Mapper> LocalMaps<M> {
    ghost use Rattle.hp_maps.specs.Events.{IsToldByAddress};
    ghost use Rattle.hp_maps.specs.Knowing.{StayKnown};

    /// Unmaps the whole table, where no chunk is attached, and begins anew: no record is taken in. What goes is told first,
    /// by rising address, whatever record it came by. Own.
    pub fn unmap_all<T: Tell>(&mut self, tell: &mut T)
        requires no_chunk { chunk_rows self.old.rows ≡ [] }
        requires spare { length self.old.rows ≤ T.spare tell.old }
        ensures rows { self.new.rows ≡ [] }
        ensures number { self.new.number ≡ 0 }
        ensures answers { self.new.answers ≡ self.old.answers }
        ensures capacity { self.new.capacity ≡ self.old.capacity }
        ensures faults { self.new.faults ≡ self.old.faults }
        ensures may_fail { self.new.may_fail ≡ self.old.may_fail }
        ensures mapped { IsMapped self.new }
        ensures told { IsToldByAddress self.old.rows (T.told tell.old) (T.told tell.new) }
        ensures spare { T.spare tell.old ≤ T.spare tell.new + length self.old.rows }

        // Those that knew the rows before it know that none is left, whatever log they are of.
        ensures known { (records : List LogRecord) (to : ℕ) → StayKnown self.old records to (T.told tell.old) [] (T.told tell.new) }
    {
        self.rows.sort_by_address();
        tell_rows(tell, &self.mapper, EventKind::Free, self.rows.as_slice());
        unmap_rows(&mut self.mapper, self.rows.as_slice());
        self.rows.clear();
        self.number = 0;
    }
}
