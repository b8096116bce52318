//! The participants, and how far each has followed the log.
ghost use Rattle.std.specs.Prelude.{◌≡◌, ◌++◌, OnOk, IfOk, string_bytes};
ghost use Rattle.hp_view.specs.Counts.{is_table};
ghost use Rattle.hp_view.specs.Tables.{attached_words, below_row, detached_words, row_shapes, table_shapes, table_words, tables};

use crate::line::Line;
use crate::page::Page;
use crate::scale::plus;
use crate::shape::Style;
use crate::words::Words;
use std::alloc::{AllocError, Global};

/// Draws the rows of the participants, from a height on.
pub fn draw_rows(
    alloc: Global,
    page: &mut Page,
    lines: &[Line<'_>],
    records: u64,
    top: u64,
) -> Result<(), AllocError>
    ensures { OnOk result (page.new ≡ page.old ++ tables records top lines.now) }
{
    let mut y = top;
    for line in lines {
        draw_row(alloc, page, records, y, line)?;
        y = below_row(y, line);
    }
    Ok(())
}

// Where the next row stands.
fn below_row(y: u64, line: &Line<'_>) -> u64
    ensures { result ≡ below_row y line.now }
{
    if is_table(line) { plus(y, 18) } else { y }
}

fn draw_row(
    alloc: Global,
    page: &mut Page,
    records: u64,
    y: u64,
    line: &Line<'_>,
) -> Result<(), AllocError>
    ensures { OnOk result (page.new ≡ page.old ++ row_shapes records y line.now) }
{
    if is_table(line) {
        draw_table(alloc, page, records, y, line)
    } else {
        Ok(())
    }
}

fn is_table(line: &Line<'_>) -> bool
    ensures { result ≡ is_table line.now }
{
    matches!(line, Line::Table { .. })
}

fn draw_table(
    alloc: Global,
    page: &mut Page,
    records: u64,
    y: u64,
    line: &Line<'_>,
) -> Result<(), AllocError>
    ensures { OnOk result (page.new ≡ page.old ++ table_shapes records y line.now) }
{
    let text = table_words(alloc, line, records)?;
    let words = Words::of(alloc, text.as_bytes())?;
    page.label(40, y, Style::Plain, words)
}

fn table_words(alloc: Global, line: &Line<'_>, records: u64) -> Result<String, AllocError>
    ensures { IfOk result (λ words. string_bytes words ≡ table_words records line.now) }
{
    match line {
        Line::Table {
            who,
            attached,
            records: taken,
            rows,
        } => {
            if *attached {
                attached_words(alloc, *who, *taken, records, *rows)
            } else {
                detached_words(alloc, *who)
            }
        }
        _ => Ok(String::new(alloc)),
    }
}

fn attached_words(
    alloc: Global,
    who: u64,
    taken: u64,
    records: u64,
    rows: u64,
) -> Result<String, AllocError>
    ensures { IfOk result (λ words. string_bytes words ≡ attached_words who taken records rows) }
{
    format!(in alloc;
        "participant {who} is attached: it has taken in {taken} of {records} records; rows of pages that it has mapped: {rows}"
    )
}

fn detached_words(alloc: Global, who: u64) -> Result<String, AllocError>
    ensures { IfOk result (λ words. string_bytes words ≡ detached_words who) }
{
    format!(in alloc; "participant {who} is not attached")
}
