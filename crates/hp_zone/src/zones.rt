//! Memzones and their calls.
ghost use Rattle.std.specs.Prelude.{◌≡◌, ◌+◌, ◌<◌, ◌≤◌, length, slice_get, Some, IfOk, IfErr, IfSome, IfNone, OnOk, OnErr};
ghost use Rattle.std.specs.Prelude.{vec_len, vec_capacity};
ghost use Rattle.hp_zone.specs.Zones.{Frees, IsFound, IsNotFound, IsZones, MayReserve, Reserves, no_zones, with_room};
ghost use Rattle.hp_zone.specs.Checking.{IsAcceptable, IsFirstFault};

use crate::asked::{is_align, is_bound, zone_name};
use crate::fault::{NotFound, ZoneFault};
use crate::limits::MAX_ZONES;
use crate::places::{file, place_of, take_out, zone_at};
use crate::zone::{Zone, ZoneChange};
use hp_base::Name;
use std::alloc::{AllocError, Global};
use std::marker::Model;

/// The memzones, after rte_memzone: memory under names, in the order of its reservation, with a log of all changes. A look-up takes about
/// twelve comparisons of names. Memory is taken by `reserve` alone, which sets aside what a reservation needs and its removal too.
#[derive(Drop)]
pub struct Zones {
    log: Vec<ZoneChange>,
    // The indexes of their changes in the log, in the order of reservation.
    order: Vec<usize>,
    // The indexes of their changes in the log, in the order of their names.
    by_name: Vec<usize>,
    spare: usize,
}

impl Model for Zones {
    ghost use Rattle.std.specs.Prelude.{vec_capacity};
    ghost use Rattle.hp_zone.specs.Zones.{ZonesView};

    ghost Value = { ZonesView };

    ghost use Rattle.hp_zone.specs.Places.{view_of, AreKept};

    ghost view = { λ z. view_of z.order.items z.log.items z.spare };

    ghost invariant = { λ z. AreKept z.order.items z.by_name.items z.log.items z.spare
        (vec_capacity z.order) (vec_capacity z.by_name) (vec_capacity z.log) };
}

impl Zones {
    /// No memzone, and no memory taken. Own.
    pub fn new(alloc: Global) -> Zones
        ensures { result ≡ no_zones }
    {
        Zones {
            log: Vec::new(alloc),
            order: Vec::new(alloc),
            by_name: Vec::new(alloc),
            spare: 0,
        }
    }

    /// Whether a memzone may be reserved with this name, and `len` bytes at that alignment and within that bound, and the name as it is
    /// kept then. The first fault in the order of `ZoneFault` refuses it; the length is rounded up to cache lines as a whole number, so
    /// one that passes 64 bits then is too long for every bound. After rte_memzone_reserve_bounded; the order is own.
    pub fn check(&self, name: &[u8], len: u64, align: u64, bound: u64) -> Result<Name, ZoneFault>
        ensures accepted { IfOk result (λ kept. kept ≡ name.now) }
        ensures acceptable { OnOk result (IsAcceptable self.now.zones (record { name = name.now; len = len; align = align; bound = bound })) }
        ensures refused { IfErr result (IsFirstFault self.now.zones (record { name = name.now; len = len; align = align; bound = bound })) }
    {
        let Some(kept) = zone_name(name) else {
            return Err(ZoneFault::NameLong);
        };
        if self.lookup(name).is_some() {
            return Err(ZoneFault::Exists);
        }
        if self.order.len() >= MAX_ZONES {
            return Err(ZoneFault::NoSpace {
                limit: MAX_ZONES as u32,
            });
        }
        if !is_align(align) {
            return Err(ZoneFault::BadAlign);
        }
        if !is_bound(len, bound) {
            return Err(ZoneFault::BadBound);
        }
        Ok(kept)
    }

    /// Sets memory aside for one reservation, if there is none yet, and for its removal. Own.
    pub fn reserve(&mut self) -> Result<(), AllocError>
        ensures ok { OnOk result (self.new ≡ with_room self.old) }
        ensures err { OnErr result (self.new ≡ self.old) }
    {
        let spare = self.spare.max(1);
        self.order.reserve(spare)?;
        self.by_name.reserve(spare)?;
        self.log.reserve(2 * spare + self.order.len())?;
        self.spare = spare;
        Ok(())
    }

    /// Reserves a memzone, of which `check` accepted the name, in memory that is set aside. After rte_memzone_reserve_bounded.
    pub fn insert(&mut self, zone: Zone)
        requires { MayReserve self.old zone }
        ensures { Reserves self.old self.new zone }
    {
        let index = self.log.len();
        file(&self.log, &mut self.by_name, zone.name.as_bytes(), index);
        self.order.push_reserved(index);
        self.log.push_reserved(ZoneChange::Put { zone });
        self.spare -= 1;
    }

    /// The memzone of that name. After rte_memzone_lookup.
    pub fn lookup(&self, name: &[u8]) -> Option<&Zone>
        ensures found { IfSome result (λ zone. IsFound self.now.zones name.now zone.now) }
        ensures none { IfNone result (IsNotFound self.now.zones name.now) }
    {
        match place_of(&self.log, &self.by_name, name) {
            Ok(at) => Some(zone_at(&self.log, self.by_name[at])),
            Err(_) => None,
        }
    }

    /// Frees the memzone of that name, and gives what it was. It takes no memory. After rte_memzone_free.
    pub fn remove(&mut self, name: &[u8]) -> Result<Zone, NotFound>
        ensures freed { IfOk result (Frees self.old self.new name.now) }
        ensures not_found { OnErr result (IsNotFound self.old.zones name.now) }
        ensures err { OnErr result (self.new ≡ self.old) }
    {
        match place_of(&self.log, &self.by_name, name) {
            Ok(at) => {
                let index = self.by_name.remove(at);
                let zone = *zone_at(&self.log, index);
                take_out(&mut self.order, index);
                self.log.push_reserved(ZoneChange::Gone { name: zone.name });
                Ok(zone)
            }
            Err(_) => Err(NotFound),
        }
    }

    /// How many memzones there are. Own.
    pub fn len(&self) -> usize
        ensures { result ≡ length self.now.zones }
    {
        self.order.len()
    }

    /// The memzone at a place in the order of reservation. It takes constant time. After the walk of rte_memzone_walk.
    pub fn get(&self, i: usize) -> &Zone
        requires { i < length self.now.zones }
        ensures { slice_get self.now.zones i ≡ Some result.now }
    {
        zone_at(&self.log, self.order[i])
    }

    /// All changes so far, in their order. Nothing is ever taken out. Own.
    pub fn log(&self) -> &[ZoneChange]
        ensures log { result.now ≡ self.now.log }
        ensures sound { IsZones self.now }
    {
        &self.log
    }

    /// For how many reservations memory is set aside. Own.
    pub fn room(&self) -> usize
        ensures { result ≡ self.now.room }
    {
        self.spare
    }
}
