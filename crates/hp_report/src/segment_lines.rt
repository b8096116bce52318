//! The lines of the report on the used segments of a list.
ghost use Rattle.std.specs.Prelude.{◌≡◌, ◌+◌, ◌*◌, ◌<◌, ◌^◌, ◌++◌, OnOk};
ghost use Rattle.hp_segs.specs.Lists.{end_of};
ghost use Rattle.hp_report.specs.SegmentTexts.{segment_line, slot_line, state_text};

use crate::lines::Lines;
use crate::page::Page;
use hp_segs::{ListInfo, RowState, Segs};
use std::alloc::AllocError;

/// The slots of a list from one on.
#[derive(Drop)]
pub struct SegmentLines<'a> {
    pub segs: &'a Segs,
    pub list: u32,
    pub info: &'a ListInfo,
    pub slot: u32,
    pub ghost below: { end_of info.now < 2 ^ 64 },
}

impl<'a> Lines for SegmentLines<'a> {
    ghost use Rattle.std.specs.Prelude.{◌-◌};
    ghost use Rattle.std.specs.List.{flat_map, range_with_len};
    ghost use Rattle.hp_report.specs.SegmentTexts.{slot_line};

    ghost rest = { λ s. flat_map (slot_line s.segs.now.segments s.list s.info.now) (range_with_len s.slot (s.info.now.slots - s.slot)) };

    ghost count = { λ s. s.info.now.slots - s.slot };

    fn next(&mut self, page: &mut Page) -> Result<bool, AllocError> {
        if self.slot >= self.info.slots {
            return Ok(false);
        }
        put_slot(page, self.segs, self.list, self.info, self.slot)?;
        self.slot += 1;
        Ok(true)
    }
}

// The segment at a slot, where it is used.
fn put_slot(
    page: &mut Page,
    segs: &Segs,
    list: u32,
    info: &ListInfo,
    slot: u32,
) -> Result<(), AllocError>
    requires within { slot < info.now.slots }
    requires below { end_of info.now < 2 ^ 64 }
    ensures { OnOk result (page.new ≡ page.old ++ slot_line segs.now.segments list info.now slot) }
{
    match segs.state(list, slot) {
        Some(state) => put_segment(page, slot_address(info, slot), state),
        None => Ok(()),
    }
}

// The address of a slot.
fn slot_address(info: &ListInfo, slot: u32) -> u64
    requires within { slot < info.now.slots }
    requires below { end_of info.now < 2 ^ 64 }
    ensures { result ≡ info.now.base + slot * info.now.page }
{
    info.base + u64::from(slot) * info.page
}

pub fn put_segment(page: &mut Page, addr: u64, state: RowState) -> Result<(), AllocError>
    ensures { OnOk result (page.new ≡ page.old ++ segment_line addr state) }
{
    page.put(b"seg")?;
    page.address(addr)?;
    put_state(page, state)?;
    page.put(b"\n")
}

// What a segment is to the heaps.
fn put_state(page: &mut Page, state: RowState) -> Result<(), AllocError>
    ensures { OnOk result (page.new ≡ page.old ++ state_text state) }
{
    match state {
        RowState::Opened => page.put(b" opened"),
        RowState::Agreed { heap } => {
            page.put(b" agreed")?;
            page.number(u64::from(heap))
        }
        RowState::Owned { heap } => {
            page.put(b" owned")?;
            page.number(u64::from(heap))
        }
        RowState::Retiring => page.put(b" retiring"),
    }
}
