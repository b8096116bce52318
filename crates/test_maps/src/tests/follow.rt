//! A participant that is ready catches up.
ghost use Rattle.std.specs.Prelude.{◌≡◌, ◌+◌, ◌-◌, ◌^◌, ◌≤◌, List, true};
ghost use Rattle.hp_base.specs.Mapping.{is_done};
ghost use Rattle.hp_log.specs.Log.{table_at};
ghost use Rattle.hp_log.specs.Places.{ListPlace};
ghost use Rattle.hp_maps.specs.MapsView.{calls_of, table_in};
ghost use Rattle.hp_maps.specs.Ready.{IsReady};

use hp_base::{Caught, Mapper, Tell};
use hp_log::LogRecord;
use hp_maps::LocalMaps;

/// It catches up with a listener that has room for twice the new records, and then it is ready again, whatever lists the log is of.
pub fn follow<M: Mapper, T: Tell>(
    maps: &mut LocalMaps<M>,
    records: &[LogRecord],
    to: u64,
    tell: &mut T,
) -> Caught
    requires ready { (lists : List ListPlace) × IsReady lists maps.old records.now to }
    requires spare { (to - maps.old.number) + (to - maps.old.number) ≤ T.spare tell.old }
    ensures table { is_done result ≡ true → table_in maps.new.rows ≡ table_at records.now to }
    ensures ready { (lists : List ListPlace) → IsReady lists maps.old records.now to → calls_of maps.new ≤ 2 ^ 63
        → IsReady lists maps.new records.now to }
    ensures capacity { maps.new.capacity ≡ maps.old.capacity }
{
    maps.catch_up(records, to, tell)
}
