//! Watchers that are told, and whose room grows.
ghost use Rattle.std.specs.Prelude.{◌≡◌, ◌≢◌, [], filter, map, not, OnErr, OnOk};
ghost use Rattle.std.specs.List.{list_any};
ghost use Rattle.hp_events.specs.Watchers.{has_name};
ghost use Rattle.hp_events.specs.Watching.{HaveRoom, IsRoomier, heard};

use crate::watcher::Watcher;
use hp_base::Event;
use std::alloc::AllocError;

/// Tells each of them an event.
pub fn tell_each(list: &mut [Watcher], event: Event)
    requires { HaveRoom 1 list.old }
    ensures { list.new ≡ map (heard event) list.old }
{
    for watcher in list.iter_mut() {
        watcher.hear(event);
    }
}

/// Makes room in each of them for so many events more. Where memory is wanting, each has at least the room that it had, and there is one.
pub fn reserve_each(list: &mut [Watcher], events: usize) -> Result<(), AllocError>
    ensures roomier { IsRoomier list.old list.new }
    ensures room { OnOk result (HaveRoom events list.new) }
    ensures some { OnErr result (list.old ≢ []) }
{
    for watcher in list.iter_mut() {
        watcher.reserve(events)?;
    }
    Ok(())
}

/// Whether one of them has the name.
pub fn has_name(list: &[Watcher], name: &[u8]) -> bool
    ensures { result ≡ list_any (λ watcher. has_name name.now watcher.listener) list.now }
{
    list.iter().any(|watcher| watcher.is_named(name))
}

/// Takes those of that name out.
pub fn take_out(list: &mut Vec<Watcher>, name: &[u8])
    ensures { list.new.items ≡ filter (λ watcher. not (has_name name.now watcher.listener)) list.old.items }
{
    list.retain(|watcher: &Watcher| !watcher.is_named(name));
}
