//! The part of the report on the tables of participants.
ghost use Rattle.std.specs.Prelude.{◌≡◌, ◌++◌, OnOk, codes, if◌then◌else◌};
ghost use Rattle.hp_report.specs.Adding.{Adds, way};
ghost use Rattle.hp_report.specs.TableTexts.{table_line, table_text, tables_text};

use crate::lines::write_lines;
use crate::page::Page;
use crate::render_fault::RenderFault;
use crate::row_lines::{RowLines, by_address};
use hp_base::Sink;
use hp_maps::Table;
use std::alloc::{AllocError, Global};

/// Writes the tables of the participants from 0 on, each with its rows by address.
pub fn write_tables<K: Sink>(
    alloc: Global,
    sink: &mut K,
    page: &mut Page,
    tables: &[Table],
) -> Result<(), RenderFault>
    ensures { Adds (way (K.held sink.old) (K.faults sink.old) page.old)
        (way (K.held sink.new) (K.faults sink.new) page.new) (tables_text tables.now) result }
{
    for (participant, table) in tables.iter().enumerate() {
        write_table(alloc, sink, page, participant as u64, table)?;
    }
    Ok(())
}

fn write_table<K: Sink>(
    alloc: Global,
    sink: &mut K,
    page: &mut Page,
    participant: u64,
    table: &Table,
) -> Result<(), RenderFault>
    ensures { Adds (way (K.held sink.old) (K.faults sink.old) page.old)
        (way (K.held sink.new) (K.faults sink.new) page.new) (table_text participant table.now) result }
{
    put_table(page, participant, table)?;
    let rows = by_address(alloc, table.rows.as_slice())?;
    let mut lines = RowLines {
        participant,
        rows: rows.as_slice(),
    };
    write_lines(sink, page, &mut lines)
}

fn put_table(page: &mut Page, participant: u64, table: &Table) -> Result<(), AllocError>
    ensures { OnOk result (page.new ≡ page.old ++ table_line participant table.now) }
{
    page.put(b"table")?;
    page.number(participant)?;
    page.put(state_word(table))?;
    page.number(number_shown(table))?;
    page.number(table.rows.len() as u64)?;
    page.put(b"\n")
}

// Whether a participant is attached.
fn state_word(table: &Table) -> &'static [u8]
    ensures { result.now ≡ (if table.now.joined then codes " in" else codes " out") }
{
    if table.joined { b" in" } else { b" out" }
}

// How many records a participant has taken in, and 0 where it is out.
fn number_shown(table: &Table) -> u64
    ensures { result ≡ (if table.now.joined then table.now.number else 0) }
{
    if table.joined { table.number } else { 0 }
}
