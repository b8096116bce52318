//! Memzones and what watchers were told, at their places in the report.
ghost use Rattle.std.specs.Prelude.{◌≡◌};

use super::{Scene, assert_reports};
use hp_base::{Event, EventKind, Name, Tell};
use hp_events::Watchers;
use hp_report::Ended;
use hp_script::Answer;
use hp_zone::{Zone, Zones};
use std::alloc::Global;
use std::process::Abort;
use std::test::Fail;

const TEXT: &str = "participants 2\n\
    pool 0 2M 1\n\
    1 watch w\n";

const REPORT: &str = "heapsim report 1\n\
    line 3 1 watch ok\n\
    zone RG_rx 0x1001fff80 128 0 0\n\
    zone MP_p 0x700000000900 18872064 256 3\n\
    pool 0 2097152 1\n\
    list 0 0 2097152 0x100000000 1\n\
    event 0 first alloc 0x100000000 2097152\n\
    event 0 first free 0x100200000 4096\n\
    event 1 w alloc 0x0 18446744073709551615\n\
    end\n";

// The memzone of a name, of so many bytes.
fn zone(name: Name, addr: u64, len: u64, socket: u32, heap: u32) -> Zone
    ensures { result.name ≡ name }
{
    Zone {
        name,
        addr,
        len,
        socket,
        heap,
    }
}

// Reserves it after its check.
fn put(zones: &mut Zones, text: &[u8], place: (u64, u64), heap: (u32, u32)) -> bool {
    let Ok(name) = zones.check(text, 100, 0, 0) else {
        return false;
    };
    if zones.reserve().is_err() {
        return false;
    }
    zones.insert(zone(name, place.0, place.1, heap.0, heap.1));
    true
}

fn tell(watchers: &mut Watchers, kind: EventKind, addr: u64, len: u64) -> bool {
    if watchers.reserve(1).is_err() {
        return false;
    }
    watchers.tell(Event { kind, addr, len });
    true
}

// What participant 0 is told: its one watcher of two events.
fn tell_first(alloc: Global, watchers: &mut Watchers) -> bool {
    watchers.register(alloc, b"first", [].as_slice()).is_ok()
        && tell(watchers, EventKind::Alloc, 0x1_0000_0000, 0x20_0000)
        && tell(watchers, EventKind::Free, 0x1_0020_0000, 4096)
}

// What participant 1 is told: one of its two watchers of an event that came before the other was registered.
fn tell_second(alloc: Global, watchers: &mut Watchers) -> bool {
    watchers.register(alloc, b"w", [].as_slice()).is_ok()
        && tell(watchers, EventKind::Alloc, 0, u64::MAX)
        && watchers.register(alloc, b"late", [].as_slice()).is_ok()
}

pub fn show(rt: &impl Abort, alloc: Global, ended: &mut Ended<'_>) -> Result<(), Fail> {
    let zones = &mut ended.names.zones;
    assert!(rt; put(zones, b"RG_rx", (0x1_001f_ff80, 128), (0, 0)));
    assert!(rt; put(zones, b"MP_p", (0x7000_0000_0900, 18_872_064), (256, 3)));
    let mut first = Watchers::new(alloc);
    assert!(rt; tell_first(alloc, &mut first));
    let mut second = Watchers::new(alloc);
    assert!(rt; tell_second(alloc, &mut second));
    ended.watchers.push(first)?;
    ended.watchers.push(second)?;
    assert_reports(rt, alloc, ended, &[Answer::Done], REPORT)
}

#[test]
fn memzones_come_after_histories_and_events_last(rt: HostRuntime) -> Result<(), Fail> {
    super::show(&rt, rt.alloc(), TEXT, Scene::Told)
}
