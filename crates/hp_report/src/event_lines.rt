//! The lines of the report on what a watcher was told.
ghost use Rattle.std.specs.Prelude.{◌≡◌, ◌++◌, OnOk};
ghost use Rattle.hp_report.specs.EventTexts.{event_line, kind_text};

use crate::lines::Lines;
use crate::page::Page;
use hp_base::{Event, EventKind};
use std::alloc::AllocError;

/// The events that are left of those that a participant's watcher was told.
#[derive(Drop)]
pub struct EventLines<'a> {
    pub participant: u64,
    pub name: &'a [u8],
    pub events: &'a [Event],
}

impl<'a> Lines for EventLines<'a> {
    ghost use Rattle.std.specs.Prelude.{length};
    ghost use Rattle.std.specs.List.{flat_map};
    ghost use Rattle.hp_report.specs.EventTexts.{event_line};

    ghost rest = { λ s. flat_map (event_line s.participant s.name.now) s.events.now };

    ghost count = { λ s. length s.events.now };

    fn next(&mut self, page: &mut Page) -> Result<bool, AllocError> {
        let Some((event, events)) = self.events.split_first() else {
            return Ok(false);
        };
        put_event(page, self.participant, self.name, event)?;
        self.events = events;
        Ok(true)
    }
}

fn put_event(
    page: &mut Page,
    participant: u64,
    name: &[u8],
    event: &Event,
) -> Result<(), AllocError>
    ensures { OnOk result (page.new ≡ page.old ++ event_line participant name.now event.now) }
{
    page.put(b"event")?;
    page.number(participant)?;
    page.put(b" ")?;
    page.put(name)?;
    page.put(kind_word(event.kind))?;
    page.address(event.addr)?;
    page.number(event.len)?;
    page.put(b"\n")
}

// Whether memory comes or goes.
fn kind_word(kind: EventKind) -> &'static [u8]
    ensures { result.now ≡ kind_text kind }
{
    match kind {
        EventKind::Alloc => b" alloc",
        EventKind::Free => b" free",
    }
}
