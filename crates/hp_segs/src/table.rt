//! The table of mapped segments, as the log leaves it.
ghost use Rattle.std.specs.Prelude.{◌≡◌, ◌^◌, ◌<◌, ◌≤◌, false, [], ◌∷◌, ◌++◌, IfOk, IsSome, OnOk, length, replicate};
ghost use Rattle.hp_base.specs.PoolLines.{ArePoolLines, IsPoolLine};
ghost use Rattle.hp_segs.specs.Table.{IsTable};
ghost use Rattle.hp_segs.specs.ListNumbers.{number_place};
ghost use Rattle.hp_segs.specs.Lists.{list_after};
ghost use Rattle.hp_segs.specs.SegsView.{rows_in};
ghost use Rattle.hp_segs.specs.Slots.{fresh_slots};
ghost use Rattle.hp_segs.specs.TableLayout.{AddsLine};

mod changes;
mod list_slots;
mod lists;
mod queries;
pub(crate) mod slots;
mod states;

use crate::list_info::ListInfo;
use crate::table::list_slots::ListSlots;
use crate::table::lists::Lists;
use hp_base::PoolLine;
use hp_fbarray::Mask;
use hp_log::LogRecord;
use hp_pool::Pools;
use std::alloc::{AllocError, Global};
use std::marker::Model;

// Where the first list begins at the earliest.
const FIRST: u64 = 1 << 32;

// The pools with their lists, the log, and the states of the rows that it leaves mapped.
#[derive(Drop)]
pub(crate) struct Table {
    pools: Vec<PoolLine>,
    // The list of each pool, and which of its slots are used.
    lists: Lists,
    masks: Vec<Mask>,
    // The free pages of each pool.
    counts: Pools,
    // The generation and the state of the row at each slot.
    kept: Vec<ListSlots>,
    // The bytes of the Agreed and Owned rows of the sockets 0 to 31.
    totals: Box<[u64; 32]>,
    log: Vec<LogRecord>,
}

impl Model for Table {
    ghost use Rattle.std.specs.Prelude.{◌-◌, length, vec_capacity};
    ghost use Rattle.hp_segs.specs.Table.{TableView};

    ghost Value = { TableView };

    ghost use Rattle.hp_log.specs.Log.{table_of};
    ghost use Rattle.hp_segs.specs.Slots.{kept_segments};
    ghost use Rattle.hp_segs.specs.TableCalls.{IsKeptTable};

    ghost view = { λ t. record {
      pools = t.pools.items;
      log = t.log.items;
      segments = kept_segments t.kept.items (table_of t.log.items);
      room = vec_capacity t.log - length t.log.items;
    } };

    ghost invariant = { λ t. IsKeptTable t.pools.items t.lists t.masks.items t.counts t.kept.items
        t.totals.value t.log.items };
}

// The list of a pool: from the first multiple of its page size at or above the end of the list before.
fn list_after(line: &PoolLine, end: u64) -> ListInfo
    requires line { IsPoolLine line.now }
    requires end { end < 2 ^ 62 }
    ensures { result ≡ list_after line.now end }
{
    ListInfo {
        socket: line.socket,
        page: line.page,
        base: end.div_ceil(line.page) * line.page,
        slots: line.slots,
    }
}

// A pool that is not there is added.
fn add_pool(counts: &mut Pools, line: &PoolLine) -> Result<(), AllocError>
    ensures { OnOk result (AddsLine counts.old counts.new line.now) }
{
    match counts.add(line.socket, line.page, line.pages) {
        Ok(()) => Ok(()),
        Err(_) => Err(AllocError),
    }
}

// A list whose slots are free is added.
fn add_list(
    alloc: Global,
    lists: &mut Lists,
    masks: &mut Vec<Mask>,
    kept: &mut Vec<ListSlots>,
    info: ListInfo,
) -> Result<(), AllocError>
    requires few { length lists.old < 128 }
    requires placed { IsSome (number_place info.socket info.page) }
    requires slots { info.slots ≤ 8192 }
    ensures lists { OnOk result (lists.new ≡ lists.old ++ info ∷ []) }
    ensures masks { OnOk result (masks.new.items ≡ masks.old.items ++ replicate info.slots false ∷ []) }
    ensures kept { OnOk result (kept.new.items ≡ kept.old.items ++ fresh_slots info ∷ []) }
{
    masks.push(Mask::new(alloc, info.slots as usize)?)?;
    kept.push(ListSlots::new(alloc, info.slots as usize)?)?;
    lists.push(info)?;
    Ok(())
}

impl Table {
    // The table of pools without a record.
    pub(crate) fn new(alloc: Global, pools: &[PoolLine]) -> Result<Table, AllocError>
        requires { ArePoolLines pools.now }
        ensures pools { IfOk result (λ table. table.pools ≡ pools.now) }
        ensures log { IfOk result (λ table. table.log ≡ []) }
        ensures segments { IfOk result (λ table. table.segments ≡ []) }
        ensures sound { IfOk result (λ table. IsTable table.pools table.log (rows_in table.segments)) }
    {
        let mut end = FIRST;
        let mut counts = Pools::new(alloc);
        let mut masks = Vec::new(alloc);
        let mut kept = Vec::new(alloc);
        let mut lists = Lists::new(alloc)?;
        for line in pools {
            let info = list_after(line, end);
            end = info.base + u64::from(info.slots) * info.page;
            add_list(alloc, &mut lists, &mut masks, &mut kept, info)?;
            add_pool(&mut counts, line)?;
        }
        let totals = Box::new(alloc, [0; 32])?;
        Ok(Table {
            pools: Vec::from_slice(alloc, pools)?,
            lists,
            masks,
            counts,
            kept,
            totals,
            log: Vec::new(alloc),
        })
    }

    // Room for n records more.
    pub(crate) fn reserve(&mut self, n: usize) -> Result<(), AllocError>
        ensures same { self.new ≡ record self.old { room = self.new.room } }
        ensures never_falls { self.old.room ≤ self.new.room }
        ensures room { OnOk result (n ≤ self.new.room) }
    {
        self.log.reserve(n)
    }
}
