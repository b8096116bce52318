//! The lines of the report on the records of the log.
ghost use Rattle.std.specs.Prelude.{◌≡◌, ◌++◌, OnOk};
ghost use Rattle.hp_report.specs.LogTexts.{record_line};

use crate::lines::Lines;
use crate::page::Page;
use hp_log::LogRecord;
use std::alloc::AllocError;

/// The records of the log from one on, numbered from generation 1.
#[derive(Drop)]
pub struct RecordLines<'a> {
    pub records: &'a [LogRecord],
    pub at: usize,
}

impl<'a> Lines for RecordLines<'a> {
    ghost use Rattle.std.specs.Prelude.{◌+◌, ◌-◌, drop, length};
    ghost use Rattle.hp_report.specs.LogTexts.{record_line};
    ghost use Rattle.hp_report.specs.Numbered.{numbered};

    ghost rest = { λ s. numbered record_line (s.at + 1) (drop s.at s.records.now) };

    ghost count = { λ s. length s.records.now - s.at };

    fn next(&mut self, page: &mut Page) -> Result<bool, AllocError> {
        if self.at >= self.records.len() {
            return Ok(false);
        }
        put_record(page, self.at as u64 + 1, &self.records[self.at])?;
        self.at += 1;
        Ok(true)
    }
}

pub fn put_record(page: &mut Page, generation: u64, entry: &LogRecord) -> Result<(), AllocError>
    ensures { OnOk result (page.new ≡ page.old ++ record_line generation entry.now) }
{
    page.put(b"rec")?;
    page.number(generation)?;
    match entry {
        LogRecord::Add { run, heap } => {
            page.put(b" add")?;
            page.run(run)?;
            page.number(u64::from(*heap))?;
        }
        LogRecord::Drop { run } => {
            page.put(b" drop")?;
            page.run(run)?;
        }
    }
    page.put(b"\n")
}
