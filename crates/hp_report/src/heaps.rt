//! The parts of the report on heaps: those that have a name with their elements, and the histories of all.
ghost use Rattle.std.specs.Prelude.{◌≡◌, ◌++◌, OnOk};
ghost use Rattle.std.specs.List.{flat_map};
ghost use Rattle.hp_report.specs.Adding.{Adds, way};
ghost use Rattle.hp_report.specs.KnownNames.{known};
ghost use Rattle.hp_report.specs.HeapParts.{part_text};
ghost use Rattle.hp_report.specs.HeapTexts.{heap_line, heap_text};
ghost use Rattle.hp_report.specs.EntryTexts.{history_text};

use crate::element_lines::ElementLines;
use crate::entry_lines::EntryLines;
use crate::heap_part::HeapPart;
use crate::lines::write_lines;
use crate::names::Names;
use crate::page::Page;
use crate::render_fault::RenderFault;
use hp_base::Sink;
use hp_heap::Heap;
use std::alloc::AllocError;

/// Writes one of the parts on heaps: what it shows of each heap, by index.
pub fn write_heaps<'a, K: Sink>(
    sink: &mut K,
    page: &mut Page,
    heaps: &'a [Heap],
    names: &'a Names<'a>,
    part: HeapPart,
) -> Result<(), RenderFault>
    ensures { Adds (way (K.held sink.old) (K.faults sink.old) page.old)
        (way (K.held sink.new) (K.faults sink.new) page.new) (flat_map (part_text part (known names.now)) heaps.now) result }
{
    for heap in heaps {
        write_part(sink, page, heap, names, part)?;
    }
    Ok(())
}

// What a part shows of a heap.
fn write_part<'a, K: Sink>(
    sink: &mut K,
    page: &mut Page,
    heap: &'a Heap,
    names: &'a Names<'a>,
    part: HeapPart,
) -> Result<(), RenderFault>
    ensures { Adds (way (K.held sink.old) (K.faults sink.old) page.old)
        (way (K.held sink.new) (K.faults sink.new) page.new) (part_text part (known names.now) heap.now) result }
{
    match part {
        HeapPart::Elements => write_heap(sink, page, heap, names),
        HeapPart::Histories => write_history(sink, page, heap, names),
    }
}

// A heap that has a name, with its elements.
fn write_heap<'a, K: Sink>(
    sink: &mut K,
    page: &mut Page,
    heap: &'a Heap,
    names: &'a Names<'a>,
) -> Result<(), RenderFault>
    ensures { Adds (way (K.held sink.old) (K.faults sink.old) page.old)
        (way (K.held sink.new) (K.faults sink.new) page.new) (heap_text (known names.now) heap.now.plain) result }
{
    let Some(name) = heap.name() else {
        return Ok(());
    };
    put_heap(page, heap, name.as_bytes())?;
    let mut elements = ElementLines {
        walk: heap.walk(),
        names,
    };
    write_lines(sink, page, &mut elements)
}

// The line of a heap, with its statistics.
fn put_heap(page: &mut Page, heap: &Heap, name: &[u8]) -> Result<(), AllocError>
    ensures { OnOk result (page.new ≡ page.old ++ heap_line name.now heap.now.plain) }
{
    page.put(b"heap")?;
    page.number(u64::from(heap.index()))?;
    page.put(b" ")?;
    page.put(name)?;
    page.number(u64::from(heap.socket_number()))?;
    page.put(b" ")?;
    page.statistics(&heap.summary())?;
    page.put(b"\n")
}

// The history of a heap.
fn write_history<'a, K: Sink>(
    sink: &mut K,
    page: &mut Page,
    heap: &'a Heap,
    names: &'a Names<'a>,
) -> Result<(), RenderFault>
    ensures { Adds (way (K.held sink.old) (K.faults sink.old) page.old)
        (way (K.held sink.new) (K.faults sink.new) page.new) (history_text (known names.now) heap.now) result }
{
    let mut entries = EntryLines {
        heap: heap.index(),
        entries: heap.history(),
        at: 0,
        names,
    };
    write_lines(sink, page, &mut entries)
}
