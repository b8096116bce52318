//! The report of a run, written as it is made.
ghost use Rattle.std.specs.Prelude.{◌≡◌, ◌++◌, OnErr, OnOk, length};
ghost use Rattle.std.specs.List.{concat};
ghost use Rattle.hp_base.specs.Streams.{CountsFault};
ghost use Rattle.hp_report.specs.Adding.{Adds, failed_writing, way};
ghost use Rattle.hp_report.specs.KnownNames.{known};
ghost use Rattle.hp_report.specs.EntryTexts.{histories_text};
ghost use Rattle.hp_report.specs.HeapTexts.{heaps_text};
ghost use Rattle.hp_report.specs.LineTexts.{lines_text};
ghost use Rattle.hp_report.specs.LogTexts.{asks_text, records_text};
ghost use Rattle.hp_report.specs.Report.{first_line, parts, report};
ghost use Rattle.hp_report.specs.SegmentTexts.{segments_text};
ghost use Rattle.hp_report.specs.Writing.{Holds, HoldsFront};
ghost use Rattle.hp_report.specs.ZoneTexts.{zones_text};

use crate::answer_lines::AnswerLines;
use crate::ask_lines::AskLines;
use crate::ended::Ended;
use crate::events::write_events;
use crate::heap_part::HeapPart;
use crate::heaps::write_heaps;
use crate::lines::{hand_on, write_lines};
use crate::names::Names;
use crate::page::Page;
use crate::record_lines::RecordLines;
use crate::render_fault::RenderFault;
use crate::segments::write_segments;
use crate::tables::write_tables;
use crate::zone_lines::ZoneLines;
use hp_base::Sink;
use hp_heap::Heap;
use hp_script::{Answer, Line};
use hp_segs::Segs;
use hp_zone::Zones;
use std::alloc::Global;

/// Writes the report of what a run left: answers, heaps with their elements, histories, memzones, pools, segment lists, used
/// segments, records of the log, outcomes of asks, tables, and what watchers were told. It takes memory for a page, for the
/// names of the workload's lines, and for the rows of one table at a time. Own.
pub fn render<K: Sink>(alloc: Global, ended: &Ended<'_>, sink: &mut K) -> Result<(), RenderFault>
    requires answers { length ended.now.answers.items ≡ length ended.now.workload.lines.items }
    ensures ok { OnOk result (Holds (K.held sink.old) (K.held sink.new) (report ended.now)) }

    // After a fault a front of the report stands after what the sink held.
    ensures err { OnErr result (HoldsFront (K.held sink.old) (K.held sink.new) (report ended.now)) }

    // The sink's count of faults rises where the sink failed, and only there.
    ensures cause { CountsFault (K.faults sink.old) (K.faults sink.new) (failed_writing result) }
{
    let names = Names::new(alloc, ended.workload.lines.as_slice())?;
    let mut page = Page::new(alloc)?;
    write_parts(alloc, sink, &mut page, ended, &names)?;
    hand_on(sink, &mut page)
}

// The parts of the report, one after the other.
fn write_parts<'a, K: Sink>(
    alloc: Global,
    sink: &mut K,
    page: &mut Page,
    ended: &'a Ended<'a>,
    names: &'a Names<'a>,
) -> Result<(), RenderFault>
    ensures { Adds (way (K.held sink.old) (K.faults sink.old) page.old)
        (way (K.held sink.new) (K.faults sink.new) page.new) (concat (parts (known names.now) ended.now)) result }
{
    let lines = ended.workload.lines.as_slice();
    let answers = ended.answers.as_slice();
    let heaps = ended.heaps.as_slice();
    let tables = ended.tables.as_slice();
    let watchers = ended.watchers.as_slice();
    write_answers(sink, page, lines, answers)?;
    write_memory(sink, page, heaps, &ended.names.zones, names)?;
    write_log(sink, page, &ended.segs)?;
    write_tables(alloc, sink, page, tables)?;
    write_events(sink, page, watchers)?;
    page.put(b"end\n")?;
    Ok(())
}

// The first line, and the workload's lines with their answers.
fn write_answers<'a, K: Sink>(
    sink: &mut K,
    page: &mut Page,
    lines: &'a [Line<'a>],
    answers: &'a [Answer],
) -> Result<(), RenderFault>
    ensures { Adds (way (K.held sink.old) (K.faults sink.old) page.old)
        (way (K.held sink.new) (K.faults sink.new) page.new) (first_line ++ lines_text lines.now answers.now) result }
{
    page.put(b"heapsim report 1\n")?;
    let mut answered = AnswerLines {
        lines,
        answers,
        at: 0,
    };
    write_lines(sink, page, &mut answered)
}

// The heaps with their elements, the histories, and the memzones.
fn write_memory<'a, K: Sink>(
    sink: &mut K,
    page: &mut Page,
    heaps: &'a [Heap],
    zones: &'a Zones,
    names: &'a Names<'a>,
) -> Result<(), RenderFault>
    ensures { Adds (way (K.held sink.old) (K.faults sink.old) page.old)
        (way (K.held sink.new) (K.faults sink.new) page.new)
        (heaps_text (known names.now) heaps.now ++ (histories_text (known names.now) heaps.now ++ zones_text zones.now.zones)) result }
{
    write_heaps(sink, page, heaps, names, HeapPart::Elements)?;
    write_heaps(sink, page, heaps, names, HeapPart::Histories)?;
    let mut zones = ZoneLines { zones, at: 0 };
    write_lines(sink, page, &mut zones)
}

// Pools, lists and segments, the records of the log, and the outcomes of asks.
fn write_log<K: Sink>(sink: &mut K, page: &mut Page, segs: &Segs) -> Result<(), RenderFault>
    ensures { Adds (way (K.held sink.old) (K.faults sink.old) page.old)
        (way (K.held sink.new) (K.faults sink.new) page.new)
        (segments_text segs.now ++ (records_text segs.now ++ asks_text segs.now)) result }
{
    // That the pools are within their limits is handed out with the log.
    let records = segs.records();
    write_segments(sink, page, segs)?;
    let mut records = RecordLines { records, at: 0 };
    write_lines(sink, page, &mut records)?;
    let mut asks = AskLines { asks: segs.asks() };
    write_lines(sink, page, &mut asks)
}
