//! The table of asks by outcome.
ghost use Rattle.std.specs.Prelude.{◌≡◌, ◌++◌, OnOk};
ghost use Rattle.hp_view.specs.Tallies.{cause_meaning, cause_word, kind_meaning, kind_word, refusal_shapes, tally_shapes, tally_style, tallies};

use crate::counts::{Kind, count_of};
use crate::line::Line;
use crate::outcome::Cause;
use crate::page::Page;
use crate::scale::plus;
use crate::shape::Style;
use crate::words::Words;
use std::alloc::{AllocError, Global};

/// What a cause means.
pub fn cause_meaning(cause: Cause) -> &'static str
    ensures { result.now ≡ cause_meaning cause }
{
    match cause {
        Cause::NoList => "the socket has no pages of that size",
        Cause::TooFew => "the pool has fewer free pages than are needed",
        Cause::ListFull => "the list has no stretch of free slots that is long enough",
        Cause::CannotHold => "the pages would not hold the request",
        Cause::Denied => "a validator denied it",
        Cause::MapFailed =>
            "participant p (mapfailed p n) could not map the pages, so they went again",
        Cause::Late =>
            "participant p (late p ..) had not mapped the pages in time, so they went again",
        Cause::Withdrawn => "the asker took it back, since no answer came",
    }
}

/// The word of a cause in the report.
pub fn cause_word(cause: Cause) -> &'static str
    ensures { result.now ≡ cause_word cause }
{
    match cause {
        Cause::NoList => "refused nolist",
        Cause::TooFew => "refused toofew",
        Cause::ListFull => "refused listfull",
        Cause::CannotHold => "refused cannothold",
        Cause::Denied => "refused denied",
        Cause::MapFailed => "refused mapfailed",
        Cause::Late => "refused late",
        Cause::Withdrawn => "refused withdrawn",
    }
}

fn kind_word(kind: Kind) -> &'static str
    ensures { result.now ≡ kind_word kind }
{
    match kind {
        Kind::Granted => "granted",
        Kind::Freed => "freed",
        Kind::Stale => "stale",
        Kind::Refused { cause } => cause_word(cause),
        _ => "",
    }
}

fn kind_meaning(kind: Kind) -> &'static str
    ensures { result.now ≡ kind_meaning kind }
{
    match kind {
        Kind::Granted => "the pages came, and every attached participant mapped them",
        Kind::Freed => "pages were given up, and went back to their pool",
        Kind::Stale => "the ask came twice",
        Kind::Refused { cause } => cause_meaning(cause),
        _ => "",
    }
}

/// Draws the table, from a height on.
pub fn draw_tallies(
    alloc: Global,
    page: &mut Page,
    lines: &[Line<'_>],
    y: u64,
) -> Result<(), AllocError>
    ensures { OnOk result (page.new ≡ page.old ++ tallies y lines.now) }
{
    draw_tally(alloc, page, lines, Kind::Granted, y)?;
    draw_tally(alloc, page, lines, Kind::Freed, plus(y, 18))?;
    draw_tally(alloc, page, lines, Kind::Stale, plus(y, 36))?;
    draw_refusal(alloc, page, lines, Cause::NoList, plus(y, 54))?;
    draw_refusal(alloc, page, lines, Cause::TooFew, plus(y, 72))?;
    draw_refusal(alloc, page, lines, Cause::ListFull, plus(y, 90))?;
    draw_refusal(alloc, page, lines, Cause::CannotHold, plus(y, 108))?;
    draw_refusal(alloc, page, lines, Cause::Denied, plus(y, 126))?;
    draw_refusal(alloc, page, lines, Cause::MapFailed, plus(y, 144))?;
    draw_refusal(alloc, page, lines, Cause::Late, plus(y, 162))?;
    draw_refusal(alloc, page, lines, Cause::Withdrawn, plus(y, 180))
}

fn draw_refusal(
    alloc: Global,
    page: &mut Page,
    lines: &[Line<'_>],
    cause: Cause,
    y: u64,
) -> Result<(), AllocError>
    ensures { OnOk result (page.new ≡ page.old ++ refusal_shapes y cause lines.now) }
{
    draw_tally(alloc, page, lines, Kind::Refused { cause }, y)
}

// A row: how many asks ended so, the word of that, and what it means.
fn draw_tally(
    alloc: Global,
    page: &mut Page,
    lines: &[Line<'_>],
    kind: Kind,
    y: u64,
) -> Result<(), AllocError>
    ensures { OnOk result (page.new ≡ page.old ++ tally_shapes y kind lines.now) }
{
    let count = count_of(lines, kind);
    let style = tally_style(count);
    let text = format!(in alloc; "{count}")?;
    let number = Words::of(alloc, text.as_bytes())?;
    page.label(40, y, style, number)?;
    let word = Words::of(alloc, kind_word(kind).as_bytes())?;
    page.label(100, y, style, word)?;
    let meaning = Words::of(alloc, kind_meaning(kind).as_bytes())?;
    page.label(250, y, style, meaning)
}

fn tally_style(count: u64) -> Style
    ensures { result ≡ tally_style count }
{
    if count == 0 {
        Style::Pale
    } else {
        Style::Plain
    }
}
