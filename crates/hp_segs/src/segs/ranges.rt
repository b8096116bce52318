//! External memory that has a list.
ghost use Rattle.std.specs.Prelude.{◌≡◌, ◌+◌, ◌*◌, ◌^◌, ◌<◌, ◌≤◌, ◌==◌, false, not, map, filter, IfOk, IsTrue, OnErr, None, find, sum_by};
ghost use Rattle.std.specs.List.{All, enumerate_from, fold, list_any};
ghost use Rattle.std.specs.Option.{option_map};
ghost use Rattle.hp_base.specs.ExternalMemory.{is_bad_range};
ghost use Rattle.hp_segs.specs.Lists.{lists_of};
ghost use Rattle.hp_segs.specs.Ranges.{after_claim_range, after_release_range, first_shared, free_number, info_of, is_claimed, is_free_number, is_too_much, lower_of, lower_shared, overlap_of, range_apart, range_contains, range_entry, range_plan, range_row, range_segments, row_at, shares_byte, unlogged_row, IsRangeAnswer};
ghost use Rattle.hp_segs.specs.SegsView.{rows_in};
ghost use Rattle.hp_segs.specs.SoundPlaces.{IsRange};
ghost use Rattle.hp_segs.specs.TableLayout.{IsExtent};

use crate::external_range::ExternalRange;
use crate::fault::RangeFault;
use crate::list_info::ListInfo;
use crate::segs::Segs;
use crate::table::Table;
use hp_base::{GREATEST_PAGE, MAX_LIST_SEGMENTS, MAX_LISTS, MAX_SEGMENTS, Row};

/// The greatest address behind external memory.
const END: u64 = 1 << 63;

// Whether these are no page size, address and length of external memory.
fn is_bad_range(addr: u64, len: u64, page: u64) -> bool
    ensures { result ≡ is_bad_range addr len page }
{
    !page.is_power_of_two()
        || !(0x1000..=GREATEST_PAGE).contains(&page)
        || addr % page != 0
        || len % page != 0
        || len == 0
        || addr > END
        || len > END - addr
}

// The list of a range.
fn info_of(range: &ExternalRange) -> ListInfo
    requires range { IsRange range.now }
    ensures { result ≡ info_of range.now }
{
    ListInfo {
        socket: range.socket,
        page: range.page,
        base: range.addr,
        slots: (range.len / range.page) as u32,
    }
}

// The row of a list's slot that is not in the log.
fn unlogged_row(list: u32, info: &ListInfo, slot: u32) -> Row
    requires { info.now.base + slot * info.now.page < 2 ^ 64 }
    ensures { result ≡ unlogged_row list info.now slot }
{
    Row {
        addr: info.base + u64::from(slot) * info.page,
        page: info.page,
        socket: info.socket,
        list,
        slot,
        generation: 0,
    }
}

// The lower of two rows, where there are such.
fn lower(lowest: Option<Row>, row: Option<Row>) -> Option<Row>
    ensures { result ≡ lower_of lowest row }
{
    match (lowest, row) {
        (Some(lowest), Some(row)) => {
            if row.addr < lowest.addr {
                Some(row)
            } else {
                Some(lowest)
            }
        }
        (None, row) => row,
        (lowest, None) => lowest,
    }
}

fn range_contains(addr: u64, range: &ExternalRange) -> bool
    ensures { result ≡ range_contains addr range.now }
{
    range.addr <= addr && addr - range.addr < range.len
}

// The row of a range that contains an address.
fn range_row(addr: u64, range: &ExternalRange) -> Row
    requires range { IsRange range.now }
    requires inside { IsTrue (range_contains addr range.now) }
    ensures { result ≡ range_row addr range.now }
{
    let slot = ((addr - range.addr) / range.page) as u32;
    unlogged_row(range.list, &info_of(range), slot)
}

// The ranges of a list go.
fn release(ranges: &mut Vec<ExternalRange>, list: u32)
    ensures { ranges.new.items ≡ filter (λ range. not (range.list == list)) ranges.old.items }
{
    ranges.retain(|range: &ExternalRange| !(range.list == list));
}

// Whether a list shares a byte with `len` bytes from `addr` on.
fn shares_byte(addr: u64, len: u64, info: &ListInfo) -> bool
    requires end { addr + len < 2 ^ 64 }
    requires list { info.now.base + info.now.slots * info.now.page < 2 ^ 64 }
    ensures { result ≡ shares_byte addr len info.now }
{
    info.base < addr + len && addr < info.base + u64::from(info.slots) * info.page
}

// The row at a slot: that of the table, or else one of generation 0.
fn row_at(table: &Table, list: u32, info: &ListInfo, slot: u32) -> Row
    requires { info.now.base + slot * info.now.page < 2 ^ 64 }
    ensures { result ≡ row_at (rows_in table.now.segments) list info.now slot }
{
    match table.at(list, slot) {
        Some(segment) => segment.row,
        None => unlogged_row(list, info, slot),
    }
}

// The lowest slot of a list that shares a byte with `len` bytes from `addr` on.
fn first_shared(table: &Table, list: u32, info: &ListInfo, addr: u64, len: u64) -> Option<Row>
    requires end { addr + len < 2 ^ 64 }
    requires fit { IsExtent info.now }
    ensures { result ≡ first_shared (rows_in table.now.segments) addr len (list, info.now) }
{
    if shares_byte(addr, len, info) {
        let slot = ((addr.max(info.base) - info.base) / info.page) as u32;
        Some(row_at(table, list, info, slot))
    } else {
        None
    }
}

// The lowest slot of the pools' lists that shares a byte with `len` bytes from `addr` on.
fn shared_in_pools(table: &Table, addr: u64, len: u64) -> Option<Row>
    requires { addr + len < 2 ^ 64 }
    ensures { result ≡ fold (lower_shared (rows_in table.now.segments) addr len) None
        (enumerate_from 0 (lists_of table.now.pools)) }
{
    let mut lowest = None;
    let lists = table.lists();
    for place in 0..lists.len() {
        lowest = lower(
            lowest,
            first_shared(table, place as u32, &lists[place], addr, len),
        );
    }
    lowest
}

// The lower of a row and the lowest slot of external memory that shares a byte with `len` bytes from `addr` on.
fn shared_in_ranges(
    table: &Table,
    ranges: &[ExternalRange],
    found: Option<Row>,
    addr: u64,
    len: u64,
) -> Option<Row>
    requires end { addr + len < 2 ^ 64 }
    requires ranges { All IsRange ranges.now }
    ensures { result ≡ fold (lower_shared (rows_in table.now.segments) addr len) found
        (map range_entry ranges.now) }
{
    let mut lowest = found;
    for range in ranges {
        let info = info_of(range);
        lowest = lower(lowest, first_shared(table, range.list, &info, addr, len));
    }
    lowest
}

// The segments of external memory.
fn segments_of(ranges: &[ExternalRange]) -> u64
    requires each { All IsRange ranges.now }
    requires few { sum_by range_segments ranges.now ≤ 16384 }
    ensures { result ≡ sum_by range_segments ranges.now }
{
    let mut count = 0;
    for range in ranges {
        count += range.len / range.page;
    }
    count
}

// Whether external memory has a list number.
#[tactic(auto, using(crate::proofs::Finds::any_step, crate::proofs::Finds::any_here, crate::proofs::Finds::any_end))]
fn has_list(ranges: &[ExternalRange], list: u32) -> bool
    ensures { result ≡ list_any (λ range. range.list == list) ranges.now }
{
    for range in ranges {
        if range.list == list {
            return true;
        }
    }
    false
}

// Whether a list number is neither one of the first lists nor one of external memory.
fn is_free_number(pools: usize, ranges: &[ExternalRange], list: u32) -> bool
    ensures { result ≡ is_free_number pools ranges.now list }
{
    pools <= list as usize && !has_list(ranges, list)
}

// The lowest list number that neither the first `pools` lists nor external memory have.
#[tactic(auto, using(crate::proofs::SlotFacts::Ranges::find_range_step, crate::proofs::SlotFacts::Ranges::find_range_here, crate::proofs::SlotFacts::Ranges::find_range_end))]
fn free_list(pools: usize, ranges: &[ExternalRange]) -> Option<u32>
    ensures { result ≡ free_number pools ranges.now }
{
    for list in 0..MAX_LISTS as u32 {
        if is_free_number(pools, ranges, list) {
            return Some(list);
        }
    }
    None
}

// Whether a list of so many segments more is too much.
fn has_no_space(segments: u64, len: u64, page: u64) -> bool
    requires page { 0 < page }
    requires few { segments ≤ 16384 }
    ensures { result ≡ is_too_much segments len page }
{
    len / page > MAX_LIST_SEGMENTS || segments + len / page > MAX_SEGMENTS
}

impl Segs {
    // The list number that external memory would get, or the first refusal.
    fn plan_range(&self, addr: u64, len: u64, page: u64) -> Result<u32, RangeFault>
        ensures { result ≡ range_plan addr len page self.now }
    {
        if is_bad_range(addr, len, page) {
            return Err(RangeFault::BadRange);
        }
        self.plan_apart(addr, len, page)
    }

    // The list number that a range of such numbers would get, or the first refusal.
    fn plan_apart(&self, addr: u64, len: u64, page: u64) -> Result<u32, RangeFault>
        requires { is_bad_range addr len page ≡ false }
        ensures { result ≡ range_apart self.now len page (overlap_of self.now addr len) }
    {
        let parts = &*self.parts;
        let ranges = parts.ranges.as_slice();
        let found = shared_in_pools(&parts.table, addr, len);
        if let Some(row) = shared_in_ranges(&parts.table, ranges, found, addr, len) {
            return Err(RangeFault::Overlaps { row });
        }
        let Some(list) = free_list(parts.table.pools().len(), ranges) else {
            return Err(RangeFault::NoSpace);
        };
        if has_no_space(parts.table.slots() + segments_of(ranges), len, page) {
            return Err(RangeFault::NoSpace);
        }
        Ok(list)
    }

    /// Gives external memory of `len` bytes from `addr` on a segment list, in pages of `page` bytes, under the lowest
    /// free list number. Its slots are rows of generation 0. Refused where these are no pages of external memory, a slot
    /// of any list shares a byte with them, or no list is left for them. After rte_malloc_heap_memory_add.
    pub fn claim_range(
        &mut self,
        addr: u64,
        len: u64,
        page: u64,
        socket: u32,
    ) -> Result<u32, RangeFault>
        ensures answer { IsRangeAnswer (range_plan addr len page self.old) result }
        ensures ok { IfOk result (λ list.
            self.new ≡ after_claim_range list addr len page socket self.old) }
        ensures err { OnErr result (self.new ≡ self.old) }
    {
        let list = self.plan_range(addr, len, page)?;
        let range = ExternalRange {
            list,
            addr,
            len,
            page,
            socket,
        };
        match self.parts.ranges.push(range) {
            Ok(()) => Ok(list),
            Err(_) => Err(RangeFault::OutOfMemory),
        }
    }

    /// Takes the list of external memory away, after rte_malloc_heap_memory_remove.
    pub fn release_range(&mut self, list: u32)
        requires claimed { IsTrue (is_claimed self.old list) }
        ensures step { self.new ≡ after_release_range list self.old }
    {
        release(&mut self.parts.ranges, list);
    }

    // The row of external memory whose bytes contain an address.
    #[tactic(auto, using(crate::proofs::Finds::find_step, crate::proofs::Finds::find_here, crate::proofs::Finds::find_end))]
    pub(crate) fn external_row(&self, addr: u64) -> Option<Row>
        ensures { result ≡ option_map (range_row addr) (find (range_contains addr) self.now.ranges) }
    {
        for range in &self.parts.ranges {
            if range_contains(addr, range) {
                return Some(range_row(addr, range));
            }
        }
        None
    }
}
