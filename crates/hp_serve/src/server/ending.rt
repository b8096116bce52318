//! The end of a participant.
ghost use Rattle.std.specs.Prelude.{◌≡◌, IfOk, IsOk};
ghost use Rattle.hp_serve.specs.Ending.{LeavesTable};

use super::Server;
use crate::end::End;
use hp_base::Mapper;
use hp_maps::Table;
use std::alloc::{AllocError, Global};

impl<'p, M: Mapper> Server<'p, M> {
    /// Its table as it stands. It is refused only where there is no memory for the rows. Own.
    pub fn table(&self, alloc: Global) -> Result<Table, AllocError>
        ensures { IfOk result (λ table. LeavesTable self.now table) }
    {
        Ok(Table {
            joined: self.joined,
            number: self.maps.number(),
            rows: Vec::from_slice(alloc, self.maps.rows())?,
        })
    }

    /// Ends the participant, and hands out its table as it stands, without a copy of its rows, and its watchers, each with what it was told.
    /// It is never refused. Own.
    pub fn end(self, _alloc: Global) -> Result<End, AllocError>
        ensures always { IsOk result }
        ensures table { IfOk result (λ end. LeavesTable self.entry end.table) }
        ensures watchers { IfOk result (λ end. end.watchers.listeners ≡ self.entry.listeners) }
    {
        let number = self.maps.number();
        let _rows = self.maps.rows();
        let table = Table {
            joined: self.joined,
            number,
            rows: self.maps.into_rows(),
        };
        Ok(End {
            table,
            watchers: self.watchers,
        })
    }
}
