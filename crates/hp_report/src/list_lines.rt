//! The lines of the report on segment lists.
ghost use Rattle.std.specs.Prelude.{◌≡◌, ◌++◌, OnOk};
ghost use Rattle.hp_report.specs.SegmentTexts.{list_line};

use crate::lines::Lines;
use crate::page::Page;
use hp_segs::ListInfo;
use std::alloc::AllocError;

/// The segment lists from one on.
#[derive(Drop)]
pub struct ListLines<'a> {
    pub lists: &'a [ListInfo],
    pub at: usize,
}

impl<'a> Lines for ListLines<'a> {
    ghost use Rattle.std.specs.Prelude.{◌-◌, drop, length};
    ghost use Rattle.hp_report.specs.Numbered.{numbered};
    ghost use Rattle.hp_report.specs.SegmentTexts.{list_line};

    ghost rest = { λ s. numbered list_line s.at (drop s.at s.lists.now) };

    ghost count = { λ s. length s.lists.now - s.at };

    fn next(&mut self, page: &mut Page) -> Result<bool, AllocError> {
        if self.at >= self.lists.len() {
            return Ok(false);
        }
        put_list(page, self.at, &self.lists[self.at])?;
        self.at += 1;
        Ok(true)
    }
}

fn put_list(page: &mut Page, number: usize, info: &ListInfo) -> Result<(), AllocError>
    ensures { OnOk result (page.new ≡ page.old ++ list_line number info.now) }
{
    page.put(b"list")?;
    page.number(number as u64)?;
    page.number(u64::from(info.socket))?;
    page.number(info.page)?;
    page.address(info.base)?;
    page.number(u64::from(info.slots))?;
    page.put(b"\n")
}
