//! Lines that are made one after another, and handed to a sink whenever a page is full.
ghost use Rattle.std.specs.Prelude.{◌≡◌, [], OnOk};
ghost use Rattle.hp_report.specs.Adding.{Adds, way};

use crate::page::Page;
use crate::render_fault::RenderFault;
use crate::writing::write_whole;
use hp_base::Sink;
use std::alloc::AllocError;

/// Lines of the report, made one after another.
pub trait Lines {
    ghost use Rattle.std.specs.Prelude.{ℕ, List, IfOk};
    ghost use Rattle.hp_report.specs.Adding.{MakesLine};

    /// The text of the lines that are left.
    ghost rest: { Self → List ℕ };

    /// A measure that falls with each line.
    ghost count: { Self → ℕ };

    /// Adds the next line to a page, which may be empty; false where none is left.
    fn next(&mut self, page: &mut Page) -> Result<bool, AllocError>
        ensures { IfOk result (MakesLine page.old page.new (rest self.old) (rest self.new) (count self.old) (count self.new)) };
}

/// Writes the lines that are left.
pub fn write_lines<K: Sink, L: Lines>(
    sink: &mut K,
    page: &mut Page,
    lines: &mut L,
) -> Result<(), RenderFault>
    ensures { Adds (way (K.held sink.old) (K.faults sink.old) page.old)
        (way (K.held sink.new) (K.faults sink.new) page.new) (L.rest lines.old) result }
{
    'lines: loop {
        let more = lines.next(page)?;
        if !more {
            return Ok(());
        }
        hand_on_full(sink, page)?;
    }
}

// Hands a page to the sink where it is full.
fn hand_on_full<K: Sink>(sink: &mut K, page: &mut Page) -> Result<(), RenderFault>
    ensures { Adds (way (K.held sink.old) (K.faults sink.old) page.old)
        (way (K.held sink.new) (K.faults sink.new) page.new) [] result }
{
    if page.is_full() {
        return hand_on(sink, page);
    }
    Ok(())
}

/// Hands a page to the sink.
pub fn hand_on<K: Sink>(sink: &mut K, page: &mut Page) -> Result<(), RenderFault>
    ensures adds { Adds (way (K.held sink.old) (K.faults sink.old) page.old)
        (way (K.held sink.new) (K.faults sink.new) page.new) [] result }
    ensures empty { OnOk result (page.new ≡ []) }
{
    write_whole(sink, page.text())?;
    page.clear();
    Ok(())
}
