//! Rows that are told one after the other.
ghost use Rattle.std.specs.Prelude.{◌≡◌, ◌+◌, ◌*◌, ◌^◌, ◌<◌, ◌≤◌, [], length, IfSome};
ghost use Rattle.hp_maps.specs.Events.{all_told, is_behind, joins_by};
ghost use Rattle.hp_maps.specs.TellingInTurn.{IsWhole, events_from, stretch_after, stretch_at, stretch_with, told_then};
ghost use Rattle.hp_base.specs.Mapping.{IsWithin};

use crate::telling::Stretch;
use hp_base::{Event, EventKind, Row, Tell};

/// Goes on with a row, where one is found: it goes on the last stretch, or begins one of its own, before which the last
/// one is told.
pub fn tell_found<T: Tell>(
    tell: &mut T,
    kind: EventKind,
    stretch: Option<Stretch>,
    found: Option<Row>,
) -> Option<Stretch>
    requires near { IfSome found IsWithin }
    requires whole { IfSome stretch IsWhole }
    requires spare { length (told_then kind stretch found) ≤ T.spare tell.old }
    ensures stretch { result ≡ stretch_after kind stretch found }
    ensures whole { IfSome result IsWhole }
    ensures told { T.told tell.new ≡ all_told (told_then kind stretch found) (T.told tell.old) }
    ensures spare { T.spare tell.old ≤ T.spare tell.new + length (told_then kind stretch found) }
{
    let Some(row) = found else {
        return stretch;
    };
    if let Some(before) = stretch {
        if joins_by(kind, &before.last, &row) {
            return Some(with(before, &row));
        }
        tell.tell(before.event);
    }
    Some(stretch_at(kind, &row))
}

/// Tells the last stretch.
pub fn tell_last<T: Tell>(tell: &mut T, kind: EventKind, stretch: Option<Stretch>)
    requires { length (events_from kind stretch []) ≤ T.spare tell.old }
    ensures told { T.told tell.new ≡ all_told (events_from kind stretch []) (T.told tell.old) }
    ensures spare { T.spare tell.old ≤ T.spare tell.new + length (events_from kind stretch []) }
{
    if let Some(last) = stretch {
        tell.tell(last.event);
    }
}

fn stretch_at(kind: EventKind, row: &Row) -> Stretch
    ensures { result ≡ stretch_at kind row.now }
{
    Stretch {
        event: Event {
            kind,
            addr: row.addr,
            len: row.page,
        },
        last: *row,
    }
}

fn with(stretch: Stretch, row: &Row) -> Stretch
    requires whole { IsWhole stretch }
    requires behind { row.now.addr ≡ stretch.last.addr + stretch.last.page }
    requires near { IsWithin row.now }
    ensures { result ≡ stretch_with stretch row.now }
{
    Stretch {
        event: Event {
            len: stretch.event.len + row.page,
            ..stretch.event
        },
        last: *row,
    }
}

fn joins_by(kind: EventKind, row: &Row, next: &Row) -> bool
    ensures { result ≡ joins_by kind row.now next.now }
{
    match kind {
        EventKind::Alloc => next.generation == row.generation && is_behind(row, next),
        EventKind::Free => is_behind(row, next),
    }
}

// Whether the next row lies in the same list where a row ends.
fn is_behind(row: &Row, next: &Row) -> bool
    ensures { result ≡ is_behind row.now next.now }
{
    next.list == row.list && next.addr >= row.addr && next.addr - row.addr == row.page
}
