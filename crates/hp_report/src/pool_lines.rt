//! The lines of the report on pools.
ghost use Rattle.std.specs.Prelude.{◌≡◌, ◌<◌, ◌++◌, OnOk, length};
ghost use Rattle.hp_report.specs.SegmentTexts.{pool_line};

use crate::lines::Lines;
use crate::page::Page;
use hp_segs::{PoolLine, Segs};
use std::alloc::AllocError;

/// The pools from one on.
#[derive(Drop)]
pub struct PoolLines<'a> {
    pub segs: &'a Segs,
    pub at: usize,
}

impl<'a> Lines for PoolLines<'a> {
    ghost use Rattle.std.specs.Prelude.{◌-◌, drop, length};
    ghost use Rattle.hp_report.specs.Numbered.{numbered};
    ghost use Rattle.hp_report.specs.SegmentTexts.{pool_line};

    ghost rest = { λ s. numbered (pool_line s.segs.now) s.at (drop s.at s.segs.now.pools) };

    ghost count = { λ s. length s.segs.now.pools - s.at };

    fn next(&mut self, page: &mut Page) -> Result<bool, AllocError> {
        let pools = self.segs.pools();
        if self.at >= pools.len() {
            return Ok(false);
        }
        put_pool(page, self.segs, self.at, &pools[self.at])?;
        self.at += 1;
        Ok(true)
    }
}

fn put_pool(page: &mut Page, segs: &Segs, pool: usize, line: &PoolLine) -> Result<(), AllocError>
    requires { pool < length segs.now.pools }
    ensures { OnOk result (page.new ≡ page.old ++ pool_line segs.now pool line.now) }
{
    page.put(b"pool")?;
    page.number(u64::from(line.socket))?;
    page.number(line.page)?;
    page.number(segs.pages_left(pool))?;
    page.put(b"\n")
}
