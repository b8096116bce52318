//! The parts of the report on pools, segment lists and used segments.
ghost use Rattle.std.specs.Prelude.{◌≡◌, ◌<◌, ◌^◌};
ghost use Rattle.hp_base.specs.PoolLines.{ArePoolLines};
ghost use Rattle.hp_segs.specs.Lists.{end_of};
ghost use Rattle.hp_report.specs.Adding.{Adds, way};
ghost use Rattle.hp_report.specs.SegmentTexts.{segments_text, all_used_text, used_text};

use crate::lines::write_lines;
use crate::list_lines::ListLines;
use crate::page::Page;
use crate::pool_lines::PoolLines;
use crate::render_fault::RenderFault;
use crate::segment_lines::SegmentLines;
use hp_base::Sink;
use hp_segs::{ListInfo, Segs};

/// Writes the pools with their pages left, the segment lists, and the used segments by address.
pub fn write_segments<K: Sink>(
    sink: &mut K,
    page: &mut Page,
    segs: &Segs,
) -> Result<(), RenderFault>
    requires limits { ArePoolLines segs.now.pools }
    ensures { Adds (way (K.held sink.old) (K.faults sink.old) page.old)
        (way (K.held sink.new) (K.faults sink.new) page.new) (segments_text segs.now) result }
{
    let mut pools = PoolLines { segs, at: 0 };
    write_lines(sink, page, &mut pools)?;
    let mut lists = ListLines {
        lists: segs.lists(),
        at: 0,
    };
    write_lines(sink, page, &mut lists)?;
    write_all_used(sink, page, segs)
}

// The used segments, list by list.
fn write_all_used<K: Sink>(sink: &mut K, page: &mut Page, segs: &Segs) -> Result<(), RenderFault>
    requires limits { ArePoolLines segs.now.pools }
    ensures { Adds (way (K.held sink.old) (K.faults sink.old) page.old)
        (way (K.held sink.new) (K.faults sink.new) page.new) (all_used_text segs.now) result }
{
    for (list, info) in segs.lists().iter().enumerate() {
        write_used(sink, page, segs, list as u32, info)?;
    }
    Ok(())
}

// The used segments of a list, by rising slot.
fn write_used<K: Sink>(
    sink: &mut K,
    page: &mut Page,
    segs: &Segs,
    list: u32,
    info: &ListInfo,
) -> Result<(), RenderFault>
    requires below { end_of info.now < 2 ^ 64 }
    ensures { Adds (way (K.held sink.old) (K.faults sink.old) page.old)
        (way (K.held sink.new) (K.faults sink.new) page.new) (used_text segs.now.segments list info.now) result }
{
    let mut lines = SegmentLines {
        segs,
        list,
        info,
        slot: 0,
    };
    write_lines(sink, page, &mut lines)
}
