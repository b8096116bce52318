ghost use Rattle.std.specs.Prelude.{◌≡◌, ◌≤◌, IfOk};
ghost use Rattle.hp_stats.specs.Pairs.{AreAmong, IsNotBelow};
ghost use Rattle.hp_stats.specs.StatViews.{has_published, has_seen, last_count, new_pen, unread};

use crate::reader::Reader;
use crate::roles::Cell;
use crate::stat_pair::{StatPair, zeros};
use crate::stat_pen::StatPen;
use crate::steps::{compare, dealt, publish, read};
use std::alloc::{AllocError, Global};
use std::marker::Model;
use std::sync::Wait;

// The newest pair of one heap, which threads share.
#[derive(Drop)]
pub(crate) struct StatCell {
    cell: Cell,
}

impl Model for StatCell {
    ghost use Rattle.atomic_table.specs.Seated.{TableId};

    ghost Value = { TableId };

    ghost use Rattle.hp_stats.specs.CellInside.{cell_id};

    ghost view = { cell_id };
}

impl StatCell {
    // A cell in which nothing is published, and its pen.
    pub fn new(alloc: Global) -> Result<(StatCell, StatPen), AllocError>
        ensures { IfOk result (λ made. made.1 ≡ new_pen made.0) }
    {
        let (cell, token) = Cell::ruled(alloc, zeros())?;
        Ok((StatCell { cell }, StatPen { token }))
    }

    // A reader that has seen nothing.
    pub fn reader(&self, pen: &mut StatPen) -> Reader
        requires cell { pen.old.cell ≡ self.now }
        ensures pen { pen.new ≡ pen.old }
        ensures reader { result ≡ unread self.now }
    {
        Reader {
            token: dealt(&self.cell, &mut pen.token),
        }
    }

    // Publishes a pair, which the reader sees.
    pub fn publish<R: Wait>(&self, rt: &R, pen: &mut StatPen, reader: &mut Reader, pair: StatPair)
        requires cell { pen.old.cell ≡ self.now }
        requires reader { reader.old.cell ≡ self.now }
        requires count { last_count pen.old ≤ pair.entries }
        ensures pen { pen.new ≡ has_published pair pen.old }
        ensures reader { reader.new ≡ has_seen pair reader.old }
    {
        publish(rt, &self.cell, &mut pen.token, &mut reader.token, pair);
    }

    // Reads the newest pair.
    pub fn read<R: Wait>(&self, rt: &R, reader: &mut Reader) -> StatPair
        requires cell { reader.old.cell ≡ self.now }
        ensures reader { reader.new ≡ has_seen result reader.old }
        ensures not_below { IsNotBelow reader.old.seen result.entries }
    {
        read(rt, &self.cell, &mut reader.token)
    }

    // Compares what a reader has seen with what the pen has published.
    pub fn meet<R: Wait>(&self, rt: &R, pen: &mut StatPen, reader: &mut Reader)
        requires cell { pen.old.cell ≡ self.now }
        requires reader { reader.old.cell ≡ self.now }
        ensures among { AreAmong pen.old.published reader.old.seen }
        ensures pen { pen.new ≡ pen.old }
        ensures reader { reader.new ≡ reader.old }
    {
        compare(rt, &self.cell, &mut pen.token, &mut reader.token);
    }
}
