//! The lines of the report on the rows of a table.
ghost use Rattle.std.specs.Prelude.{◌≡◌, ◌++◌, IfOk, OnOk};
ghost use Rattle.hp_report.specs.TableTexts.{by_address, row_line};

use crate::lines::Lines;
use crate::page::Page;
use hp_base::Row;
use std::alloc::{AllocError, Global};

/// The rows of a participant's table that are left.
#[derive(Drop)]
pub struct RowLines<'a> {
    pub participant: u64,
    pub rows: &'a [Row],
}

impl<'a> Lines for RowLines<'a> {
    ghost use Rattle.std.specs.Prelude.{length};
    ghost use Rattle.std.specs.List.{flat_map};
    ghost use Rattle.hp_report.specs.TableTexts.{row_line};

    ghost rest = { λ s. flat_map (row_line s.participant) s.rows.now };

    ghost count = { λ s. length s.rows.now };

    fn next(&mut self, page: &mut Page) -> Result<bool, AllocError> {
        let Some((row, rows)) = self.rows.split_first() else {
            return Ok(false);
        };
        put_row(page, self.participant, row)?;
        self.rows = rows;
        Ok(true)
    }
}

fn put_row(page: &mut Page, participant: u64, row: &Row) -> Result<(), AllocError>
    ensures { OnOk result (page.new ≡ page.old ++ row_line participant row.now) }
{
    page.put(b"map")?;
    page.number(participant)?;
    page.address(row.addr)?;
    page.number(row.page)?;
    page.number(u64::from(row.socket))?;
    page.put(b"\n")
}

/// The rows of a table by rising address. Those of one address keep their order.
pub fn by_address(alloc: Global, rows: &[Row]) -> Result<Vec<Row>, AllocError>
    ensures { IfOk result (λ sorted. sorted.items ≡ by_address rows.now) }
{
    let mut sorted = Vec::from_slice(alloc, rows)?;
    sorted.sort_by_key(|row| row.addr)?;
    Ok(sorted)
}
