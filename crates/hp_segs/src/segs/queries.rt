//! What is read off the segment value.
ghost use Rattle.std.specs.Prelude.{◌≡◌, ◌+◌, ◌*◌, ◌^◌, ◌<◌, ◌≤◌, ◌++◌, OnErr, OnOk, length};
ghost use Rattle.hp_segs.specs.Lists.{lists_of};
ghost use Rattle.std.specs.List.{All};
ghost use Rattle.hp_log.specs.Log.{run_in, table_at};
ghost use Rattle.hp_log.specs.Rows.{IsSmallRun};
ghost use Rattle.hp_segs.specs.Ranges.{row_containing};
ghost use Rattle.hp_segs.specs.SegsView.{pages_left, state_at, total_of};
ghost use Rattle.hp_segs.specs.Sound.{IsSound};

use crate::list_info::ListInfo;
use crate::row_state::RowState;
use crate::segs::Segs;
use hp_base::{PoolLine, Row};
use hp_log::LogRecord;
use std::alloc::{AllocError, Global};

impl Segs {
    /// The pools, in their order. After hugepage_info of EAL.
    pub fn pools(&self) -> &[PoolLine]
        ensures { result.now ≡ self.now.pools }
    {
        self.parts.table.pools()
    }

    /// The free pages of the pool of that place. After hugepage_info of EAL.
    pub fn pages_left(&self, pool: usize) -> u64
        requires { pool < length self.now.pools }
        ensures { result ≡ pages_left self.now pool }
    {
        self.parts.table.pages_left(pool)
    }

    /// The segment lists of the pools, in their order. After rte_memseg_list_walk.
    pub fn lists(&self) -> &[ListInfo]
        ensures { result.now ≡ lists_of self.now.pools }
    {
        self.parts.table.lists()
    }

    /// The state of a slot of a pool's list. It is `None` exactly where the slot is not mapped. After rte_memseg_walk;
    /// the states are own.
    pub fn state(&self, list: u32, slot: u32) -> Option<RowState>
        ensures { result ≡ state_at self.now.segments list slot }
    {
        Some(self.parts.table.at(list, slot)?.state)
    }

    /// The log of what was mapped and unmapped. Own.
    pub fn records(&self) -> &[LogRecord]
        ensures records { result.now ≡ self.now.log }

        // What holds of every segment value.
        ensures sound { IsSound self.now }

        // The numbers of each run are within their types.
        ensures small { All (λ entry. IsSmallRun (run_in entry)) self.now.log }
    {
        self.parts.table.records()
    }

    /// The row whose bytes contain an address: a segment that is mapped by the log, or a slot of external memory. It is
    /// `None` exactly where there is none. After rte_mem_virt2memseg.
    pub fn virt2row(&self, addr: u64) -> Option<Row>
        ensures { result ≡ row_containing self.now addr }
    {
        match self.parts.table.containing(addr) {
            Some(row) => Some(row),
            None => self.external_row(addr),
        }
    }

    /// The bytes of the Agreed and Owned rows of a socket. Own.
    pub fn total_of(&self, socket: u32) -> u64
        ensures total { result ≡ total_of self.now.segments socket }
        ensures fits { result ≤ 2 ^ 48 }
    {
        self.parts.table.total_of(socket)
    }

    /// Adds the table that the first `n` records leave to `out`. Where memory runs out, `out` is as before. Own.
    pub fn table_at(&self, alloc: Global, n: u64, out: &mut Vec<Row>) -> Result<(), AllocError>
        requires { n ≤ length self.now.log }
        ensures ok { OnOk result (out.new.items ≡ out.old.items ++ table_at self.now.log n) }
        ensures err { OnErr result (out.new.items ≡ out.old.items) }
    {
        hp_log::table_at(alloc, self.parts.table.records(), n, out)
    }
}
