//! The deadlines that participants wait for.
ghost use Rattle.std.specs.Prelude.{◌<◌, IfNone, IfSome};
ghost use Rattle.hp_solo.specs.Draining.{IsLeastDue, IsNoneDue};
ghost use Rattle.hp_solo.specs.Solo.{IsNextDue, IsSooner};

use crate::alone::Alone;
use hp_base::Mapper;
use hp_serve::Decide;

// The least of a deadline and those of participants that are there, of such as are still to come.
pub fn next_due<M: Mapper, F: Decide + Copy + Drop>(
    servers: &[Alone<'_, M, F>],
    clock: u64,
    until: u64,
) -> u64
    requires { clock < until }
    ensures { IsNextDue clock servers.now until result }
{
    let mut next = until;
    for number in 0..servers.len() {
        let due = servers[number].due();
        next = sooner(clock, next, due);
    }
    next
}

// The least deadline of participants that are there that is still to come. One at the end of the clock's type never passes, and counts for
// none.
pub fn least_due<M: Mapper, F: Decide + Copy + Drop>(
    servers: &[Alone<'_, M, F>],
    clock: u64,
) -> Option<u64>
    ensures least { IfSome result (IsLeastDue clock servers.now) }
    ensures none { IfNone result (IsNoneDue clock servers.now) }
{
    if clock == u64::MAX {
        return None;
    }
    let next = next_due(servers, clock, u64::MAX);
    if next == u64::MAX { None } else { Some(next) }
}

// The lesser of two deadlines, of which the second counts where it is still to come.
fn sooner(clock: u64, next: u64, due: Option<u64>) -> u64
    requires { clock < next }
    ensures { IsSooner clock next due result }
{
    match due {
        Some(due) if clock < due && due < next => due,
        _ => next,
    }
}
