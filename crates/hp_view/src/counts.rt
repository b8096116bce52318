//! How many lines of a kind a report has.
ghost use Rattle.std.specs.Prelude.{◌≡◌};
ghost use Rattle.hp_view.specs.Counts.{count_of, is_kind, is_outcome};

use crate::line::Line;
use crate::log::is_record;
use crate::outcome::{Cause, Outcome};

/// A kind of lines.
#[derive(Clone, Copy)]
pub enum Kind {
    /// Heaps.
    Heap,
    /// Records of the log.
    Record,
    /// Outcomes of asks.
    Ask,
    /// Participants.
    Table,
    /// Asks that were granted.
    Granted,
    /// Pages that were given up.
    Freed,
    /// Asks that came again.
    Stale,
    /// Asks that were refused for a cause.
    Refused { cause: Cause },
}

/// How many lines are of a kind.
pub fn count_of(lines: &[Line<'_>], kind: Kind) -> u64
    ensures { result ≡ count_of kind lines.now }
{
    let mut count = 0;
    for line in lines {
        if is_kind(line, kind) {
            count += 1;
        }
    }
    count
}

fn is_kind(line: &Line<'_>, kind: Kind) -> bool
    ensures { result ≡ is_kind kind line.now }
{
    match kind {
        Kind::Heap => matches!(line, Line::Heap { .. }),
        Kind::Record => is_record(line),
        Kind::Table => matches!(line, Line::Table { .. }),
        Kind::Ask => matches!(line, Line::Ask { .. }),
        _ => match line {
            Line::Ask { outcome, .. } => is_outcome(*outcome, kind),
            _ => false,
        },
    }
}

fn is_outcome(outcome: Outcome, kind: Kind) -> bool
    ensures { result ≡ is_outcome kind outcome }
{
    match (kind, outcome) {
        (Kind::Granted, Outcome::Granted { .. }) => true,
        (Kind::Freed, Outcome::Freed { .. }) => true,
        (Kind::Stale, Outcome::Stale) => true,
        (Kind::Refused { cause }, Outcome::Refused { cause: due }) => cause == due,
        _ => false,
    }
}
