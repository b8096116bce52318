//! A participant's table catches up with the log of the segment value that the participant has taken.
ghost use Rattle.std.specs.Prelude.{◌≡◌, ◌≢◌, ◌^◌, ◌+◌, ◌≤◌, ◌||◌, [], true, false, length};
ghost use Rattle.hp_base.specs.declared.limits.TheConstants.{MAX_HEAPS};
ghost use Rattle.hp_base.specs.Mapping.{is_done};
ghost use Rattle.hp_log.specs.Log.{table_at};
ghost use Rattle.hp_maps.specs.Catching.{CanCatchUp};
ghost use Rattle.hp_maps.specs.MapsView.{calls_of, chunk_rows, table_in};
ghost use Rattle.hp_serve.specs.Serving.{CatchesUp, HasUsedUpCalls, MayStopMapping, most_told, tells_after_catching, told_of};
ghost use Rattle.hp_serve.specs.InHall.{marked_in};
ghost use Rattle.hp_serve.specs.Tied.{IsTied};
ghost use Rattle.hp_hall.specs.HallState.{Did};
ghost use Rattle.hp_hall.specs.Mail.{HasInHand};
ghost use Rattle.hp_serve.specs.SegmentSlot.{MayCatchUp, StaysButOwn};

use crate::calls::tell_number;
use hp_base::{Caught, Mapper};
use hp_events::Watchers;
use hp_hall::Hall;
use hp_log::LogRecord;
use hp_maps::LocalMaps;
use hp_segs::{Segs, log_law};

// A mapper that has made more calls than these stops its participant.
const MOST_CALLS: u64 = 1 << 63;

/// Whether a participant stops, since its mapper has made too many calls.
pub(crate) fn is_worn<M: Mapper>(maps: &LocalMaps<M>) -> bool
    ensures worn { result ≡ true → HasUsedUpCalls maps.now }
    ensures fresh { result ≡ false → calls_of maps.now ≤ 2 ^ 63 }
{
    maps.calls() > MOST_CALLS
}

/// Makes room for what its watchers are told of a catch-up with the segment value, and answers whether there is. There always is where nobody
/// watches.
pub(crate) fn make_room<M: Mapper>(
    maps: &LocalMaps<M>,
    watchers: &mut Watchers,
    segs: &Segs,
) -> bool
    ensures listeners { watchers.new.listeners ≡ watchers.old.listeners }
    ensures room { result ≡ true → length segs.now.log ≤ maps.now.number + watchers.new.spare }
    ensures watched { result ≡ false → watchers.old.listeners ≢ [] }
{
    let records = segs.records().len() as u64;
    let newer = records.saturating_sub(maps.number());
    match watchers.reserve(newer as usize) {
        Ok(()) => true,
        Err(_) => false,
    }
}

/// Whether a participant that is to catch up with the segment value stops instead: its mapper has made too many calls, or there is no room
/// for what its watchers are told. Where it goes on there is room.
pub(crate) fn stops_mapping<M: Mapper>(
    maps: &LocalMaps<M>,
    watchers: &mut Watchers,
    segs: &Segs,
) -> bool
    ensures listeners { watchers.new.listeners ≡ watchers.old.listeners }
    ensures stops { result ≡ true → MayStopMapping maps.now watchers.old.listeners }
    ensures fresh { result ≡ false → calls_of maps.now ≤ 2 ^ 63 }
    ensures room { result ≡ false → length segs.now.log ≤ maps.now.number + watchers.new.spare }
{
    if is_worn(maps) {
        return true;
    }
    !make_room(maps, watchers, segs)
}

/// Whether all rows are mapped.
pub(crate) fn is_done(caught: &Caught) -> bool
    ensures { result ≡ is_done caught.now }
{
    match caught {
        Caught::Done => true,
        Caught::Refused { .. } | Caught::Elsewhere { .. } => false,
    }
}

/// Whether a participant has a table once it has caught up, or failed to; `joined` says whether it had one before.
pub(crate) fn has_table(joined: bool, caught: &Caught) -> bool
    ensures { result ≡ (joined || is_done caught.now) }
{
    if joined { true } else { is_done(caught) }
}

/// Catches up with all records, and tells the watchers of that. Where nobody watches, no row is looked at to be told.
pub(crate) fn catch_up<M: Mapper>(
    maps: &mut LocalMaps<M>,
    watchers: &mut Watchers,
    records: &[LogRecord],
) -> Caught
    requires can { CanCatchUp maps.old records.now (length records.now) }
    requires spare { most_told records.now maps.old ≤ watchers.old.spare }
    ensures caught { CatchesUp records.now maps.old maps.new result }
    ensures told { watchers.new.listeners ≡ told_of records.now result maps.old watchers.old.listeners }
    ensures table { is_done result ≡ true → table_in maps.new.rows ≡ table_at records.now (length records.now) }
    ensures chunks { chunk_rows maps.new.rows ≡ chunk_rows maps.old.rows }
    ensures capacity { maps.new.capacity ≡ maps.old.capacity }
{
    let to = records.len() as u64;
    if watchers.len() == 0 {
        return maps.catch_up_untold(records, to);
    }
    maps.catch_up(records, to, watchers)
}

/// Takes the whole log of the segment value in, tells the watchers of that, and the hall how far the table has come. `joined` says whether
/// the participant had a table before.
pub(crate) fn take_in<H: Hall, M: Mapper>(
    hall: &mut H,
    me: u8,
    joined: bool,
    maps: &mut LocalMaps<M>,
    watchers: &mut Watchers,
    segs: &Segs,
) -> Caught
    requires serves { (H.state hall.old).serves me }
    requires seen { segs.now.log ≡ (H.state hall.old).seen me }
    requires hand { HasInHand MAX_HEAPS ((H.state hall.old).done me) }
    requires may { MayCatchUp segs.now (marked_in me (H.state hall.old)) ((H.state hall.old).own me) joined maps.old }
    requires room { length segs.now.log ≤ maps.old.number + watchers.old.spare }
    ensures caught { CatchesUp segs.now.log maps.old maps.new result }
    ensures told { watchers.new.listeners ≡ told_of segs.now.log result maps.old watchers.old.listeners }
    ensures tied { IsTied segs.now.log ((H.state hall.new).own me) (marked_in me (H.state hall.new)) (joined || is_done result) maps.new }
    ensures did { Did me (tells_after_catching result (length segs.now.log)) (H.state hall.old) (H.state hall.new) }
    ensures stays { StaysButOwn me (H.state hall.old) (H.state hall.new) }
    ensures goes_on { H.goes_on hall.old hall.new }
{
    log_law();
    // No two of its rows have one address.
    let _rows = maps.rows();
    let records = segs.records();
    let to = records.len() as u64;
    let caught = catch_up(maps, watchers, records);
    tell_number(hall, me, &caught, to);
    caught
}
