//! Steps of memzones.
ghost use Rattle.std.specs.Prelude.{◌≡◌};

use hp_base::Name;
use hp_zone::{Zone, ZoneChange, ZoneFault, Zones};
use std::alloc::Global;

/// One thing that is done with memzones, and what it must give.
#[derive(Clone, Copy)]
pub enum ZoneStep {
    /// A reservation by name, length, alignment and bound is accepted.
    Check(&'static str, u64, u64, u64),
    /// It is refused, with that fault.
    Refuse(&'static str, u64, u64, u64, ZoneFault),
    /// A zone of that name is reserved at an address.
    Put(&'static str, u64),
    /// The zone of that name is freed, which is at an address.
    Free(&'static str, u64),
    /// No zone has that name: neither a look-up nor a removal finds one.
    Lost(&'static str),
    /// The zone at a place in the order of reservation has that name.
    See(usize, &'static str),
    /// There are so many zones.
    Count(usize),
    /// There were so many changes.
    Long(usize),
    /// The changes of the log leave the zones.
    Replays,
    /// So many zones are reserved, with two letters each.
    Zeros(u64),
    /// So many of them are freed, the last first.
    Reverse(u64),
}

// The zone of a name at an address.
fn zone(name: Name, addr: u64) -> Zone
    ensures { result.name ≡ name }
{
    Zone {
        name,
        addr,
        len: 128,
        socket: 0,
        heap: 0,
    }
}

// Reserves a zone after its check.
fn put(zones: &mut Zones, text: &[u8], addr: u64) -> bool {
    let Ok(name) = zones.check(text, 100, 0, 0) else {
        return false;
    };
    if zones.reserve().is_err() {
        return false;
    }
    zones.insert(zone(name, addr));
    has(zones, text, addr)
}

// Whether a zone of that name is at an address.
fn has(zones: &Zones, text: &[u8], addr: u64) -> bool {
    match zones.lookup(text) {
        Some(found) => found.addr == addr && found.name.as_bytes() == text,
        None => false,
    }
}

// Frees a zone that is at an address.
fn free(zones: &mut Zones, text: &[u8], addr: u64) -> bool {
    match zones.remove(text) {
        Ok(gone) => gone.addr == addr,
        Err(_) => false,
    }
}

// Two letters for a number below 4,096.
fn letters(n: u64) -> [u8; 2] {
    [48 + (n % 64) as u8, 48 + (n / 64 % 64) as u8]
}

fn put_many(zones: &mut Zones, many: u64) -> bool {
    for n in 0..many {
        if !put(zones, &letters(n), n) {
            return false;
        }
    }
    true
}

fn free_many(zones: &mut Zones, many: u64) -> bool {
    for n in (0..many).rev() {
        if !free(zones, &letters(n), n) {
            return false;
        }
    }
    true
}

// The zones that the changes of a log leave, as a list.
fn replay(alloc: Global, log: &[ZoneChange]) -> Option<Vec<Zone>> {
    let mut left: Vec<Zone> = Vec::new(alloc);
    for change in log {
        match change {
            ZoneChange::Put { zone } => left.push(*zone).ok()?,
            ZoneChange::Gone { name } => left.retain(|zone: &Zone| zone.name != *name),
        }
    }
    Some(left)
}

fn replays(alloc: Global, zones: &Zones) -> bool {
    let Some(left) = replay(alloc, zones.log()) else {
        return false;
    };
    if left.len() != zones.len() {
        return false;
    }
    for (i, zone) in left.iter().enumerate() {
        if i >= zones.len() || zones.get(i) != zone {
            return false;
        }
    }
    true
}

fn do_step(alloc: Global, zones: &mut Zones, step: &ZoneStep) -> bool {
    match step {
        ZoneStep::Check(text, len, align, bound) => {
            match zones.check(text.as_bytes(), *len, *align, *bound) {
                Ok(name) => name.as_bytes() == text.as_bytes(),
                Err(_) => false,
            }
        }
        ZoneStep::Refuse(text, len, align, bound, fault) => {
            zones.check(text.as_bytes(), *len, *align, *bound).err() == Some(*fault)
        }
        ZoneStep::Put(text, addr) => put(zones, text.as_bytes(), *addr),
        ZoneStep::Free(text, addr) => free(zones, text.as_bytes(), *addr),
        ZoneStep::Lost(text) => {
            zones.lookup(text.as_bytes()).is_none() && zones.remove(text.as_bytes()).is_err()
        }
        ZoneStep::See(place, text) => {
            *place < zones.len() && zones.get(*place).name.as_bytes() == text.as_bytes()
        }
        ZoneStep::Count(count) => zones.len() == *count,
        ZoneStep::Long(count) => zones.log().len() == *count,
        ZoneStep::Replays => replays(alloc, zones),
        ZoneStep::Zeros(many) => put_many(zones, *many),
        ZoneStep::Reverse(many) => free_many(zones, *many),
    }
}

/// How many zones there are after all steps, if each gave what it must.
pub fn play(alloc: Global, steps: &[ZoneStep]) -> Option<usize> {
    let mut zones = Zones::new(alloc);
    for step in steps {
        if !do_step(alloc, &mut zones, step) {
            return None;
        }
    }
    Some(zones.len())
}
