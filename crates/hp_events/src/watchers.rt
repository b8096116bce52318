//! The memory event callbacks of a participant.
ghost use Rattle.std.specs.Prelude.{◌≡◌, ◌≢◌, ◌<◌, ◌≤◌, [], length, slice_get, IfErr, IfSome, OnErr, OnOk};
ghost use Rattle.hp_events.specs.Watchers.{
  AnswersUnwatch,
  AnswersWatch,
  none_watching,
  registered,
  unregistered,
  unwatch_refusal,
  watch_refusal,
  with_room,
};

use crate::fault::{UnwatchFault, WatchFault};
use crate::limits::MAX_WATCHERS;
use crate::telling::{has_name, reserve_each, take_out, tell_each};
use crate::watcher::Watcher;
use hp_base::{Event, Name, Row, Tell};
use std::alloc::{AllocError, Global};
use std::marker::Model;

/// The memory event callbacks of a participant, in the order of their registration, each with the events that it was told since. There are
/// at most four, with names of 1 to 63 bytes. After rte_mem_event_callback_register; the number is own.
#[derive(Drop)]
pub struct Watchers {
    list: Vec<Watcher>,
    // For how many events more each of them has room.
    spare: usize,
}

impl Model for Watchers {
    ghost use Rattle.std.specs.Prelude.{map};
    ghost use Rattle.hp_events.specs.Watchers.{WatchersView};
    ghost use Rattle.hp_events.specs.Watching.{AreWatchers, listener_of};

    ghost Value = { WatchersView };

    ghost view = { λ w. record { listeners = map listener_of w.list.items; spare = w.spare } };

    ghost invariant = { λ w. AreWatchers w.list.items w.spare };
}

impl Watchers {
    /// Nobody watches, and no memory is taken. Own.
    pub fn new(alloc: Global) -> Watchers
        ensures { result ≡ none_watching }
    {
        Watchers {
            list: Vec::new(alloc),
            spare: 0,
        }
    }

    /// Registers a watcher that is told of what comes and goes from now on, where `table` is mapped. It is refused for its name, for one
    /// that has the name, for four that there are, in this order, and where memory is wanting. After rte_mem_event_callback_register.
    pub fn register(&mut self, alloc: Global, name: &[u8], table: &[Row]) -> Result<(), WatchFault>
        ensures judged { AnswersWatch (watch_refusal self.old.listeners name.now) result }
        ensures ok { OnOk result (self.new ≡ registered name.now table.now self.old) }
        ensures err { OnErr result (self.new ≡ self.old) }
    {
        let Some(own) = Name::new(name) else {
            return Err(WatchFault::NameLong { len: name.len() });
        };
        if has_name(&self.list, name) {
            return Err(WatchFault::Exists);
        }
        if self.list.len() >= MAX_WATCHERS as usize {
            return Err(WatchFault::Full {
                limit: MAX_WATCHERS,
            });
        }
        self.add(alloc, own, table)
    }

    // A watcher of that name comes, after the others.
    fn add(&mut self, alloc: Global, name: Name, table: &[Row]) -> Result<(), WatchFault>
        requires few { length self.old.listeners < 4 }
        ensures ok { OnOk result (self.new ≡ registered name table.now self.old) }
        ensures err { IfErr result (λ fault. (fault ≡ WatchFault.OutOfMemory) × (self.new ≡ self.old)) }
    {
        let Ok(watcher) = Watcher::new(alloc, name, table, self.spare) else {
            return Err(WatchFault::OutOfMemory);
        };
        match self.list.push(watcher) {
            Ok(()) => Ok(()),
            Err(_) => Err(WatchFault::OutOfMemory),
        }
    }

    /// The watcher of that name is told of nothing more, and is no longer among them. After rte_mem_event_callback_unregister.
    pub fn unregister(&mut self, name: &[u8]) -> Result<(), UnwatchFault>
        ensures judged { AnswersUnwatch (unwatch_refusal self.old.listeners name.now) result }
        ensures ok { OnOk result (self.new ≡ unregistered name.now self.old) }
        ensures err { OnErr result (self.new ≡ self.old) }
    {
        let Some(_own) = Name::new(name) else {
            return Err(UnwatchFault::NameLong { len: name.len() });
        };
        if !has_name(&self.list, name) {
            return Err(UnwatchFault::NotFound);
        }
        take_out(&mut self.list, name);
        Ok(())
    }

    /// Makes room in each watcher, and in those that come, for so many events more. It is refused only where somebody watches. Own.
    pub fn reserve(&mut self, events: usize) -> Result<(), AllocError>
        ensures ok { OnOk result (self.new ≡ with_room events self.old) }
        ensures err { OnErr result (self.new ≡ self.old) }
        ensures watched { OnErr result (self.old.listeners ≢ []) }
    {
        if self.spare < events {
            reserve_each(&mut self.list, events)?;
            self.spare = events;
        }
        Ok(())
    }

    /// How many watchers there are, at most four. Own.
    pub fn len(&self) -> usize
        ensures len { result ≡ length self.now.listeners }
        ensures few { result ≤ 4 }
    {
        self.list.len()
    }

    /// The name of the watcher at a place in the order of registration. Own.
    pub fn name(&self, i: usize) -> &Name
        requires { i < length self.now.listeners }
        ensures { IfSome (slice_get self.now.listeners i) (λ listener. result.now ≡ listener.name) }
    {
        self.list[i].name()
    }

    /// The events that the watcher at a place in the order of registration was told since it was registered, in their order. Own.
    pub fn events(&self, i: usize) -> &[Event]
        requires { i < length self.now.listeners }
        ensures { IfSome (slice_get self.now.listeners i) (λ listener. result.now ≡ listener.events) }
    {
        self.list[i].events()
    }
}

impl Tell for Watchers {
    ghost told = { λ w. w.listeners };

    ghost spare = { λ w. w.spare };

    fn tell(&mut self, event: Event) {
        tell_each(&mut self.list, event);
        self.spare -= 1;
    }
}
