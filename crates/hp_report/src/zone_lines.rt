//! The lines of the report on memzones.
ghost use Rattle.std.specs.Prelude.{◌≡◌, ◌++◌, OnOk};
ghost use Rattle.hp_report.specs.ZoneTexts.{zone_line};

use crate::lines::Lines;
use crate::page::Page;
use hp_zone::{Zone, Zones};
use std::alloc::AllocError;

/// The memzones from one on.
#[derive(Drop)]
pub struct ZoneLines<'a> {
    pub zones: &'a Zones,
    pub at: usize,
}

impl<'a> Lines for ZoneLines<'a> {
    ghost use Rattle.std.specs.Prelude.{◌-◌, drop, length};
    ghost use Rattle.std.specs.List.{flat_map};
    ghost use Rattle.hp_report.specs.ZoneTexts.{zone_line};

    ghost rest = { λ s. flat_map zone_line (drop s.at s.zones.now.zones) };

    ghost count = { λ s. length s.zones.now.zones - s.at };

    fn next(&mut self, page: &mut Page) -> Result<bool, AllocError> {
        if self.at >= self.zones.len() {
            return Ok(false);
        }
        put_zone(page, self.zones.get(self.at))?;
        self.at += 1;
        Ok(true)
    }
}

fn put_zone(page: &mut Page, zone: &Zone) -> Result<(), AllocError>
    ensures { OnOk result (page.new ≡ page.old ++ zone_line zone.now) }
{
    page.put(b"zone")?;
    page.put(b" ")?;
    page.put(zone.name.as_bytes())?;
    page.address(zone.addr)?;
    page.number(zone.len)?;
    page.number(u64::from(zone.socket))?;
    page.number(u64::from(zone.heap))?;
    page.put(b"\n")
}
