//! What watchers have heard.
ghost use Rattle.std.specs.Prelude.{◌<◌, length};

use super::PAGE;
use hp_base::{Event, EventKind};
use hp_events::Watchers;

/// Whether a watcher has that name and was told those events, and no others.
pub fn has_heard(watchers: &Watchers, name: &str, told: &[Event]) -> bool {
    for place in 0..watchers.len() {
        if watchers.name(place).as_bytes() == name.as_bytes() {
            return watchers.events(place) == told;
        }
    }
    false
}

/// So many pages come at an address, or go.
pub fn comes(addr: u64, pages: u64) -> Event {
    event(EventKind::Alloc, addr, pages)
}

pub fn goes(addr: u64, pages: u64) -> Event {
    event(EventKind::Free, addr, pages)
}

fn event(kind: EventKind, addr: u64, pages: u64) -> Event {
    Event {
        kind,
        addr,
        len: pages.saturating_mul(PAGE),
    }
}
