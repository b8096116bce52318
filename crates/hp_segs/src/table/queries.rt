//! What is read off the table.
ghost use Rattle.std.specs.Prelude.{◌≡◌, ◌<◌, ◌≤◌, ◌^◌, true, false, Some, IfNone, IfSome, IsSomeAnd, IsTrue, length, find, slice_get, sum_by};
ghost use Rattle.std.specs.List.{All, list_any};
ghost use Rattle.hp_segs.specs.Table.{IsTable};
ghost use Rattle.hp_segs.specs.TableLayout.{IsFitList, list_contains};
ghost use Rattle.hp_log.specs.Rows.{IsSmallRun};
ghost use Rattle.hp_log.specs.Log.{run_in};
ghost use Rattle.hp_log.specs.Rows.{at_slot, row_contains};
ghost use Rattle.hp_fbarray.specs.Answers.{free_run};
ghost use Rattle.hp_segs.specs.Lists.{list_number, lists_of, pages_beside, slots_beside};
ghost use Rattle.hp_segs.specs.SegsView.{rows_in, total_of};

use crate::list_info::ListInfo;
use crate::row_state::Segment;
use crate::table::Table;
use hp_base::{MAX_SOCKETS, PoolLine, Row};
use hp_fbarray::FreeRun;
use hp_log::LogRecord;

impl Table {
    pub(crate) fn pools(&self) -> &[PoolLine]
        ensures { result.now ≡ self.now.pools }
    {
        self.pools.as_slice()
    }

    pub(crate) fn lists(&self) -> &[ListInfo]
        ensures lists { result.now ≡ lists_of self.now.pools }
        ensures fit { All IsFitList (lists_of self.now.pools) }
        ensures few { length (lists_of self.now.pools) ≤ 128 }
    {
        self.lists.as_slice()
    }

    pub(crate) fn records(&self) -> &[LogRecord]
        ensures records { result.now ≡ self.now.log }
        ensures sound { IsTable self.now.pools self.now.log (rows_in self.now.segments) }
        ensures small { All (λ entry. IsSmallRun (run_in entry)) self.now.log }
    {
        self.log.as_slice()
    }

    // The number of the list of a socket and a page size.
    pub(crate) fn list_number(&self, socket: u32, page: u64) -> Option<usize>
        ensures { result ≡ list_number (lists_of self.now.pools) socket page }
    {
        self.lists.number_of(socket, page)
    }

    // The free pages of the pool of that place.
    pub(crate) fn pages_left(&self, pool: usize) -> u64
        requires { pool < length self.now.pools }
        ensures { result ≡ pages_beside self.now.pools (rows_in self.now.segments) pool }
    {
        let line = &self.pools[pool];
        self.counts
            .have_at(pool, line.socket, line.page)
            .unwrap_or(0)
    }

    // The first run of n free slots of a list, or how long the longest one is.
    pub(crate) fn free_run(&self, list: usize, n: usize) -> FreeRun
        requires { list < length (lists_of self.now.pools) }
        ensures { result ≡ free_run (slots_beside self.now.pools (rows_in self.now.segments) list) n }
    {
        self.masks[list].find_run(n)
    }

    // The slots of all lists.
    pub(crate) fn slots(&self) -> u64
        ensures { result ≡ sum_by (λ line. line.slots) self.now.pools }
    {
        let mut slots = 0;
        for line in &self.pools {
            slots += u64::from(line.slots);
        }
        slots
    }

    // The segment at a slot.
    pub(crate) fn at(&self, list: u32, slot: u32) -> Option<Segment>
        ensures { result ≡ find (λ segment. at_slot list slot segment.row) self.now.segments }
    {
        if self.has_row(list, slot) {
            Some(self.segment(list, slot))
        } else {
            None
        }
    }

    // Whether a slot has a row.
    fn has_row(&self, list: u32, slot: u32) -> bool
        ensures { result ≡ list_any (at_slot list slot) (rows_in self.now.segments) }
    {
        let Some(info) = self.lists.as_slice().get(list as usize) else {
            return false;
        };
        if slot >= info.slots {
            return false;
        }
        self.masks[list as usize].is_set(slot as usize)
    }

    // The segment at a slot that has a row.
    fn segment(&self, list: u32, slot: u32) -> Segment
        requires used { list_any (at_slot list slot) (rows_in self.now.segments) ≡ true }
        ensures { find (λ segment. at_slot list slot segment.row) self.now.segments ≡ Some result }
    {
        let info = self.lists.list(list as usize);
        let kept = &self.kept[list as usize];
        Segment {
            row: Row {
                addr: info.base + u64::from(slot) * info.page,
                page: info.page,
                socket: info.socket,
                list,
                slot,
                generation: kept.generation(slot as usize),
            },
            state: kept.state(slot as usize),
        }
    }

    // The row whose bytes contain an address.
    pub(crate) fn containing(&self, addr: u64) -> Option<Row>
        ensures { result ≡ find (row_contains addr) (rows_in self.now.segments) }
    {
        let Some(list) = list_containing(self.lists.as_slice(), addr) else {
            return None;
        };
        let info = self.lists.list(list);
        let slot = (addr - info.base) / info.page;
        match self.at(list as u32, slot as u32) {
            Some(segment) => Some(segment.row),
            None => None,
        }
    }

    // The bytes of the Agreed and Owned rows of a socket.
    pub(crate) fn total_of(&self, socket: u32) -> u64
        ensures total { result ≡ total_of self.now.segments socket }
        ensures fits { result ≤ 2 ^ 48 }
    {
        if socket < MAX_SOCKETS {
            self.totals[socket as usize]
        } else {
            0
        }
    }
}

// A list whose bytes contain an address.
fn list_containing(lists: &[ListInfo], addr: u64) -> Option<usize>
    requires fit { All IsFitList lists.now }
    ensures some { IfSome result (λ list.
        IsSomeAnd (slice_get lists.now list) (λ info. IsTrue (list_contains addr info))) }
    ensures none { IfNone result (All (λ info. list_contains addr info ≡ false) lists.now) }
{
    for list in 0..lists.len() {
        if list_contains(addr, &lists[list]) {
            return Some(list);
        }
    }
    None
}

// Whether the bytes of a list contain an address.
fn list_contains(addr: u64, info: &ListInfo) -> bool
    requires fit { IsFitList info.now }
    ensures { result ≡ list_contains addr info.now }
{
    info.base <= addr && addr < info.base + u64::from(info.slots) * info.page
}
