//! The part of the report on what watchers were told.
ghost use Rattle.hp_report.specs.Adding.{Adds, way};
ghost use Rattle.hp_report.specs.EventTexts.{event_line, events_text, watchers_text};
ghost use Rattle.std.specs.List.{flat_map};

use crate::event_lines::EventLines;
use crate::lines::write_lines;
use crate::page::Page;
use crate::render_fault::RenderFault;
use hp_base::{Event, Sink};
use hp_events::Watchers;

/// Writes what the watchers of the participants from 0 on were told, in the order of their registration.
pub fn write_events<K: Sink>(
    sink: &mut K,
    page: &mut Page,
    watchers: &[Watchers],
) -> Result<(), RenderFault>
    ensures { Adds (way (K.held sink.old) (K.faults sink.old) page.old)
        (way (K.held sink.new) (K.faults sink.new) page.new) (events_text watchers.now) result }
{
    for (participant, own) in watchers.iter().enumerate() {
        write_watchers(sink, page, participant as u64, own)?;
    }
    Ok(())
}

// What a participant's watchers were told.
fn write_watchers<K: Sink>(
    sink: &mut K,
    page: &mut Page,
    participant: u64,
    watchers: &Watchers,
) -> Result<(), RenderFault>
    ensures { Adds (way (K.held sink.old) (K.faults sink.old) page.old)
        (way (K.held sink.new) (K.faults sink.new) page.new) (watchers_text participant watchers.now) result }
{
    for place in 0..watchers.len() {
        let name = watchers.name(place).as_bytes();
        write_watcher(sink, page, participant, name, watchers.events(place))?;
    }
    Ok(())
}

// What one of them was told.
fn write_watcher<K: Sink>(
    sink: &mut K,
    page: &mut Page,
    participant: u64,
    name: &[u8],
    events: &[Event],
) -> Result<(), RenderFault>
    ensures { Adds (way (K.held sink.old) (K.faults sink.old) page.old)
        (way (K.held sink.new) (K.faults sink.new) page.new) (flat_map (event_line participant name.now) events.now) result }
{
    let mut lines = EventLines {
        participant,
        name,
        events,
    };
    write_lines(sink, page, &mut lines)
}
