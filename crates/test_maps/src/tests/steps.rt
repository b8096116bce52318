//! What a table does, one step after another. Its condition is looked at when it runs, and nothing is done where that is not so.
ghost use Rattle.std.specs.Prelude.{◌≡◌, ◌==◌, ℕ, List};
ghost use Rattle.std.specs.List.{list_any};
ghost use Rattle.hp_log.specs.declared.log_record.LogRecord.{LogRecord};
ghost use Rattle.test_maps.specs.Known.{IsKnown, StaysKnown};

use super::follow::follow;
use super::heard::has_heard;
use super::looks::{Look, is_so};
use hp_base::{Caught, Chunk, Event, Mapper, Row};
use hp_events::Watchers;
use hp_log::LogRecord;
use hp_maps::{LocalMaps, ready_law};
use std::alloc::Global;

/// One step, with what has to come of it.
#[derive(Clone, Copy)]
pub enum Step {
    // It catches up with the records up to that number, which is no lower than before.
    Follow(u64, Caught),
    // It attaches the chunk, where nothing is mapped, or detaches it.
    Attach(Caught),
    Detach,
    // It unmaps all, where no chunk is attached.
    Leave,
    // What is seen of it.
    See(Look),
    // A watcher is registered, and another one is not any more.
    Watch(&'static str),
    Unwatch(&'static str),
    // It was told that since, and nothing else.
    Heard(&'static str, &'static [Event]),
    // No watcher has the name.
    Gone(&'static str),
}

// Two pages of 4,096 bytes.
const CHUNK: Chunk = Chunk {
    list: 1,
    addr: 0x70_0000_0000,
    len: 0x2000,
    page: 0x1000,
    socket: 256,
    attached: 0,
};

/// Whether the step came out as it stands, where the table has seen the records up to number `reached`.
pub fn perform<M: Mapper>(
    alloc: Global,
    maps: &mut LocalMaps<M>,
    watchers: &mut Watchers,
    records: &[LogRecord],
    reached: &mut u64,
    step: Step,
) -> bool
    requires { IsKnown maps.old records.now reached.old }
    ensures { IsKnown maps.new records.now reached.new }
{
    match step {
        Step::Follow(to, caught) => catch(maps, watchers, records, reached, to) == Some(caught),
        Step::Attach(caught) => attach(maps) == Some(caught),
        Step::Detach => detach(maps),
        Step::Leave => leave(maps, watchers),
        Step::See(look) => is_so(maps, look),
        Step::Watch(name) => watchers
            .register(alloc, name.as_bytes(), maps.rows())
            .is_ok(),
        Step::Unwatch(name) => watchers.unregister(name.as_bytes()).is_ok(),
        Step::Heard(name, told) => has_heard(watchers, name, told),
        Step::Gone(name) => watchers.unregister(name.as_bytes()).is_err(),
    }
}

fn catch<M: Mapper>(
    maps: &mut LocalMaps<M>,
    watchers: &mut Watchers,
    records: &[LogRecord],
    reached: &mut u64,
    to: u64,
) -> Option<Caught>
    requires { IsKnown maps.old records.now reached.old }
    ensures { IsKnown maps.new records.now reached.new }
{
    if to < *reached || to > 8 || to as usize > records.len() {
        return None;
    }
    if maps.calls() > 1 << 63 {
        return None;
    }
    watchers.reserve(16).ok()?;
    *reached = to;
    Some(follow(maps, records, to, watchers))
}

fn attach<M: Mapper>(maps: &mut LocalMaps<M>) -> Option<Caught>
    requires { (records : List LogRecord) × (reached : ℕ) × IsKnown maps.old records reached }
    ensures { StaysKnown maps.old maps.new }
{
    if !maps.rows().is_empty() || maps.calls() > 1 << 63 {
        return None;
    }
    ready_law();
    Some(maps.attach_chunk(&CHUNK))
}

fn detach<M: Mapper>(maps: &mut LocalMaps<M>) -> bool
    ensures { StaysKnown maps.old maps.new }
{
    ready_law();
    maps.detach_chunk(&CHUNK);
    true
}

fn leave<M: Mapper>(maps: &mut LocalMaps<M>, watchers: &mut Watchers) -> bool
    ensures { StaysKnown maps.old maps.new }
{
    let rows = maps.rows();
    if has_chunk(rows) || watchers.reserve(rows.len()).is_err() {
        return false;
    }
    maps.unmap_all(watchers);
    true
}

// Whether one of the rows is a chunk's.
fn has_chunk(rows: &[Row]) -> bool
    ensures { result ≡ list_any (λ row. row.generation == 0) rows.now }
{
    rows.iter().any(|row| is_of_chunk(row))
}

fn is_of_chunk(row: &Row) -> bool
    ensures { result ≡ (row.now.generation == 0) }
{
    row.generation == 0
}
