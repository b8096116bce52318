ghost use Rattle.std.specs.Prelude.{◌≡◌, ◌<◌, ◌≤◌, [], IfOk, OnOk};
ghost use Rattle.hp_events.specs.Watchers.{has_name};
ghost use Rattle.hp_events.specs.Watching.{heard};

use crate::rows_then::RowsThen;
use hp_base::{Event, Name, Row};
use std::alloc::{AllocError, Global};
use std::marker::Model;

/// A memory event callback, as a value: its name, and the events that it was told. The rows that were mapped when it was registered are
/// for contracts alone; of them it keeps the last one in memory. After rte_mem_event_callback_register.
#[derive(Drop)]
pub struct Watcher {
    name: Name,
    since: RowsThen,
    events: Vec<Event>,
}

impl Model for Watcher {
    ghost use Rattle.std.specs.Prelude.{vec_capacity, vec_len, ◌-◌};
    ghost use Rattle.hp_events.specs.Watching.{WatcherView};

    ghost Value = { WatcherView };

    ghost view = { λ w. record {
      listener = record { name = w.name; since = w.since; events = w.events.items };
      room = vec_capacity w.events - vec_len w.events;
    } };
}

impl Watcher {
    /// One that was told nothing yet since these rows, with room for so many events.
    pub fn new(alloc: Global, name: Name, table: &[Row], room: usize) -> Result<Watcher, AllocError>
        ensures listener { IfOk result (λ w. w.listener ≡ record { name = name; since = table.now; events = [] }) }
        ensures room { IfOk result (λ w. room ≤ w.room) }
    {
        Ok(Watcher {
            name,
            since: RowsThen::of(table),
            events: Vec::with_capacity(alloc, room)?,
        })
    }

    /// Its name.
    pub fn name(&self) -> &Name
        ensures { result.now ≡ self.now.listener.name }
    {
        &self.name
    }

    /// Whether that is its name.
    pub fn is_named(&self, name: &[u8]) -> bool
        ensures { result ≡ has_name name.now self.now.listener }
    {
        self.name.as_bytes() == name
    }

    /// What it was told, in its order.
    pub fn events(&self) -> &[Event]
        ensures { result.now ≡ self.now.listener.events }
    {
        &self.events
    }

    /// It is told an event, for which it has room.
    pub fn hear(&mut self, event: Event)
        requires { 0 < self.old.room }
        ensures { self.new ≡ heard event self.old }
    {
        self.events.push_reserved(event);
    }

    /// Makes room for so many events more.
    pub fn reserve(&mut self, events: usize) -> Result<(), AllocError>
        ensures listener { self.new.listener ≡ self.old.listener }
        ensures room { OnOk result (events ≤ self.new.room) }
        ensures kept { self.old.room ≤ self.new.room }
    {
        self.events.reserve(events)
    }
}
