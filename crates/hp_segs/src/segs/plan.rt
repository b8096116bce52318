//! The run that is planned for an ask.
ghost use Rattle.std.specs.Prelude.{◌≡◌, ◌+◌, ◌*◌, ◌^◌, ◌<◌, ◌≤◌, ℕ, IfOk, None, Some, Err, slice_get};
ghost use Rattle.hp_base.specs.PoolLines.{ArePoolLines};
ghost use Rattle.hp_fbarray.specs.FreeRuns.{first_free_run};
ghost use Rattle.hp_log.specs.Rows.{slots_of};
ghost use Rattle.hp_segs.specs.TableLayout.{IsFitList};
ghost use Rattle.hp_segs.specs.Lists.{list_number, lists_of, run_at};
ghost use Rattle.hp_segs.specs.Plan.{plan_of, planned_in, planned_run, planned_slots, HasPlace, IsFirstFor};
ghost use Rattle.hp_segs.specs.Refusals.{IsFull, IsShort, IsUnfit};
ghost use Rattle.hp_segs.specs.SegsView.{closed_number, rows_in};
ghost use Rattle.std.specs.Option.{option_map};

use crate::ask::Ask;
use crate::list_info::ListInfo;
use crate::plan_refusal::PlanRefusal;
use crate::segs::Segs;
use crate::table::Table;
use hp_base::{Run, pages_for, place};
use hp_fbarray::FreeRun;

// The run is judged by itself alone.
fn judged(ask: &Ask, run: Run) -> Result<Run, PlanRefusal>
    requires end { run.addr + run.count * run.page < 2 ^ 64 }
    requires some { 0 < run.count * run.page }
    ensures { result ≡ planned_run ask.now run }
{
    let len = u64::from(run.count) * run.page;
    match place(run.addr, run.addr + len, &ask.request) {
        Some(_) => Ok(run),
        None => Err(PlanRefusal::CannotHold {
            addr: run.addr,
            len,
        }),
    }
}

// The run of `count` slots of a list from a slot on.
fn run_at(info: &ListInfo, list: u32, first: u32, count: u32) -> Run
    requires { info.now.base + first * info.now.page < 2 ^ 64 }
    ensures { result ≡ run_at info.now list first count }
{
    Run {
        list,
        first,
        count,
        addr: info.base + u64::from(first) * info.page,
        page: info.page,
        socket: info.socket,
    }
}

// The run from the first of enough free slots, or how long the longest free stretch is.
fn plan_slots(
    table: &Table,
    ask: &Ask,
    list: u32,
    info: &ListInfo,
    need: u64,
) -> Result<Run, PlanRefusal>
    requires listed { slice_get (lists_of table.now.pools) list ≡ Some info.now }
    requires fit { IsFitList info.now }
    requires some { 0 < need }
    ensures { result ≡ planned_slots ask.now (rows_in table.now.segments) list info.now need
        (first_free_run (slots_of (rows_in table.now.segments) list info.now.slots) 0 need) }
{
    match table.free_run(list as usize, need as usize) {
        FreeRun::Found { start } => judged(ask, run_at(info, list, start as u32, need as u32)),
        FreeRun::TooShort { longest } => Err(PlanRefusal::ListFull {
            longest: longest as u64,
            need,
        }),
    }
}

// The plan in the list of that number.
fn plan_in(table: &Table, ask: &Ask, list: usize) -> Result<Run, PlanRefusal>
    requires listed { list_number (lists_of table.now.pools) ask.now.socket ask.now.page ≡ Some list }
    ensures { result ≡ planned_in ask.now table.now.pools (rows_in table.now.segments) (Some list) }
{
    let lists = table.lists();
    let info = lists[list];
    let have = table.pages_left(list);
    let need = pages_for(&ask.request, ask.page);
    if have < need {
        return Err(PlanRefusal::TooFew { have, need });
    }
    plan_slots(table, ask, list as u32, &info, need)
}

impl Segs {
    /// The run that an ask would get: the first one of the pages asked in the list of its socket and page size, all or
    /// nothing. Refused where the ask is closed, a growth is open, there is no list, the pool has too few free pages,
    /// no stretch of slots is long enough, or the run alone has no place for the request. After
    /// eal_memalloc_alloc_seg_bulk; the run is own.
    pub fn plan_run(&self, ask: &Ask) -> Result<Run, PlanRefusal>
        requires participant { ask.now.from < 16 }
        ensures plan { result ≡ plan_of ask.now self.now }

        // A planned run is the first one of the pages asked in the ask's list, and has a place for the request.
        ensures first { IfOk result (IsFirstFor self.now.pools (rows_in self.now.segments) ask.now) }
        ensures holds { IfOk result (HasPlace ask.now) }
        ensures fits { IfOk result (λ run. run.count * run.page ≤ 2 ^ 47) }

        // What each refusal says.
        ensures stale { (number done : ℕ) → result ≡ Err (PlanRefusal.StaleAsk number done)
            → (number ≡ ask.now.number) × (done ≡ closed_number self.now.asks ask.now.from) × (number ≤ done) }
        ensures growing { (generation : ℕ) → result ≡ Err (PlanRefusal.GrowthOpen generation)
            → option_map (λ growth. growth.generation) self.now.growth ≡ Some generation }
        ensures no_list { result ≡ Err PlanRefusal.NoList
            → list_number (lists_of self.now.pools) ask.now.socket ask.now.page ≡ None }
        ensures too_few { (have need : ℕ) → result ≡ Err (PlanRefusal.TooFew have need)
            → IsShort self.now.pools (rows_in self.now.segments) ask.now have need }
        ensures list_full { (longest need : ℕ) → result ≡ Err (PlanRefusal.ListFull longest need)
            → IsFull self.now.pools (rows_in self.now.segments) ask.now longest need }
        ensures no_place { (addr len : ℕ) → result ≡ Err (PlanRefusal.CannotHold addr len)
            → IsUnfit self.now.pools (rows_in self.now.segments) ask.now addr len }
    {
        self.plan(ask)
    }

    // The run or the first refusal.
    fn plan(&self, ask: &Ask) -> Result<Run, PlanRefusal>
        requires participant { ask.now.from < 16 }
        ensures plan { result ≡ plan_of ask.now self.now }
        ensures limits { ArePoolLines self.now.pools }
    {
        let parts = &*self.parts;
        let done = parts.asks.closed(ask.from);
        if ask.number <= done {
            return Err(PlanRefusal::StaleAsk {
                number: ask.number,
                done,
            });
        }
        if let Some(growth) = &parts.growth {
            return Err(PlanRefusal::GrowthOpen {
                generation: growth.generation,
            });
        }
        match parts.table.list_number(ask.socket, ask.page) {
            None => Err(PlanRefusal::NoList),
            Some(list) => plan_in(&parts.table, ask, list),
        }
    }
}
