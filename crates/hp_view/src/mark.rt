//! Marks of a band: elements that are drawn as one.
ghost use Rattle.std.specs.Prelude.{◌≡◌};
ghost use Rattle.hp_view.specs.Bands.{busy_count, joins, single, with_next};

use crate::element::{is_busy, whole_of};
use crate::line::Line;
use crate::scale::{is_narrow, place, plus};

/// Some elements that are drawn as one: the bytes of the heap before them and with them, how many they are, and how many of them are busy.
#[derive(Clone, Copy)]
pub struct Mark {
    pub from: u64,
    pub to: u64,
    pub count: u64,
    pub busy: u64,
}

// 1 for a busy element.
fn busy_count(line: &Line<'_>) -> u64
    ensures { result ≡ busy_count line.now }
{
    if is_busy(line) { 1 } else { 0 }
}

/// The mark of one element, with so many bytes of the heap before it.
pub fn single(element: &Line<'_>, from: u64) -> Mark
    ensures { result ≡ single element.now from }
{
    Mark {
        from,
        to: plus(from, whole_of(element)),
        count: 1,
        busy: busy_count(element),
    }
}

/// Whether an element that comes after a mark is drawn with it: it and the first of the mark take less than a pixel, and it begins in the
/// pixel in which the mark does.
pub fn joins(first: &Line<'_>, mark: Mark, next: &Line<'_>, total: u64) -> bool
    ensures { result ≡ joins first.now mark next.now total }
{
    is_narrow(whole_of(first), total)
        && is_narrow(whole_of(next), total)
        && place(mark.from, total) == place(mark.to, total)
}

/// A mark with one element more.
pub fn with_next(mark: Mark, next: &Line<'_>) -> Mark
    ensures { result ≡ with_next mark next.now }
{
    Mark {
        from: mark.from,
        to: plus(mark.to, whole_of(next)),
        count: plus(mark.count, 1),
        busy: plus(mark.busy, busy_count(next)),
    }
}
