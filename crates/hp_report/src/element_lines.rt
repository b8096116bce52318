//! The lines of the report on the elements of a heap.
ghost use Rattle.std.specs.Prelude.{◌≡◌, ◌++◌, OnOk};
ghost use Rattle.hp_report.specs.KnownNames.{known};
ghost use Rattle.hp_report.specs.HeapTexts.{element_line, state_text};

use crate::lines::Lines;
use crate::names::Names;
use crate::page::Page;
use hp_base::class_of;
use hp_heap::{Elements, Span, SpanState};
use std::alloc::AllocError;

/// The elements that are left of a walk over a heap.
#[derive(Drop)]
pub struct ElementLines<'a> {
    pub walk: Elements<'a>,
    pub names: &'a Names<'a>,
}

impl<'a> Lines for ElementLines<'a> {
    ghost use Rattle.std.specs.Prelude.{length};
    ghost use Rattle.std.specs.List.{flat_map};
    ghost use Rattle.hp_report.specs.KnownNames.{known};
    ghost use Rattle.hp_report.specs.HeapTexts.{element_line};

    ghost rest = { λ s. flat_map (element_line (known s.names.now)) s.walk };

    ghost count = { λ s. length s.walk };

    fn next(&mut self, page: &mut Page) -> Result<bool, AllocError> {
        let Some(span) = self.walk.next() else {
            return Ok(false);
        };
        put_element(page, span, self.names)?;
        Ok(true)
    }
}

pub fn put_element(page: &mut Page, span: &Span, names: &Names<'_>) -> Result<(), AllocError>
    ensures { OnOk result (page.new ≡ page.old ++ element_line (known names.now) span.now) }
{
    page.put(b"elem")?;
    page.address(span.addr)?;
    page.number(span.whole)?;
    put_state(page, span.whole, &span.state, names)?;
    page.put(b"\n")
}

fn put_state(
    page: &mut Page,
    whole: u64,
    state: &SpanState,
    names: &Names<'_>,
) -> Result<(), AllocError>
    ensures { OnOk result (page.new ≡ page.old ++ state_text (known names.now) whole state.now) }
{
    match state {
        SpanState::Free { .. } => {
            page.put(b" free")?;
            page.number(u64::from(class_of(whole.saturating_sub(128))))
        }
        SpanState::Busy { pad, size, tag } => {
            page.put(b" busy")?;
            page.number(*pad)?;
            page.number(*size)?;
            page.number(u64::from(tag.who))?;
            page.put(b" ")?;
            page.put(names.of(*tag))
        }
    }
}
