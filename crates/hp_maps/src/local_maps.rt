ghost use Rattle.std.specs.Prelude.{◌≡◌, ◌+◌, ◌≤◌, [], true, length};
ghost use Rattle.std.specs.List.{list_any};
ghost use Rattle.hp_base.specs.Mapping.{AreApart, is_done, is_row};
ghost use Rattle.hp_base.specs.Streams.{CountsFault};
ghost use Rattle.hp_log.specs.Log.{table_at};
ghost use Rattle.hp_maps.specs.MapsView.{IsMapped, calls_of, chunk_rows, table_in};

use crate::catching::{number_after, take_in};
use crate::last_drops::LastDrops;
use crate::row_list::RowList;
use crate::rows::is_row;
use crate::telling::{tell_caught, tell_dropped};
use hp_base::{Caught, Mapper, Row, Tell};
use hp_log::LogRecord;
use std::alloc::{AllocError, Global};
use std::marker::Model;

/// What one process has mapped: the rows of the log that it has taken in, and the rows of the chunks that it attached.
/// After the memseg lists that a secondary process keeps for itself, and eal_memalloc_sync_with_primary.
#[derive(Drop)]
pub struct LocalMaps<M: Mapper> {
    mapper: M,
    rows: RowList,
    // Which records drop a page last, of those that are taken in at once.
    drops: LastDrops,
    // How many records are taken in.
    number: u64,
    // How many rows there may be.
    capacity: usize,
    // How many mapping calls there were.
    calls: u64,
}

mod chunks;
mod leaving;

impl<M: Mapper> Model for LocalMaps<M> {
    ghost use Rattle.hp_maps.specs.MapsView.{MapsView};
    ghost use Rattle.hp_maps.specs.MapsLayout.{IsKept};

    ghost Value = { MapsView };

    ghost view = { λ a. record {
      rows = a.rows.items;
      number = a.number;
      capacity = a.capacity;
      answers = M.answers a.mapper;
      faults = M.faults a.mapper;
      may_fail = M.may_fail a.mapper;
      held = M.held a.mapper;
    } };

    ghost invariant = { λ a. IsKept a.rows.items (M.held a.mapper) a.capacity a.rows.memory
        (M.capacity a.mapper) a.calls (M.answers a.mapper) };
}

impl<M: Mapper> LocalMaps<M> {
    ghost use Rattle.std.specs.Prelude.{IfOk};
    ghost use Rattle.hp_maps.specs.Events.{all_told, caught_events};
    ghost use Rattle.hp_maps.specs.Knowing.{StayKnown};
    ghost use Rattle.hp_maps.specs.Catching.{
      CanCatchUp,
      HasAnswered,
      HasReason,
      Lags,
      kept,
      new_rows,
      newer,
      number_after,
      rows_after,
      was_refused,
    };

    /// Nothing is mapped yet, and there is room for so many rows. Own.
    pub fn new(alloc: Global, mapper: M, capacity: usize) -> Result<LocalMaps<M>, AllocError>
        requires holds { M.held mapper ≡ [] }
        requires room { capacity ≤ M.capacity mapper }
        requires calls { M.answers mapper ≡ [] }
        ensures { IfOk result (λ maps. maps ≡ record {
          rows = [];
          number = 0;
          capacity = capacity;
          answers = [];
          faults = M.faults mapper;
          may_fail = M.may_fail mapper;
          held = [];
        }) }
    {
        Ok(LocalMaps {
            mapper,
            rows: RowList::new(alloc, capacity)?,
            drops: LastDrops::new(alloc)?,
            number: 0,
            capacity,
            calls: 0,
        })
    }

    /// How many records of the log it has taken in. Own.
    pub fn number(&self) -> u64
        ensures { result ≡ self.now.number }
    {
        self.number
    }

    /// How many mapping calls there were. Own.
    pub fn calls(&self) -> u64
        ensures { result ≡ calls_of self.now }
    {
        self.calls
    }

    /// What is mapped, in the order of mapping: rows of the log, and of chunks. Own.
    pub fn rows(&self) -> &[Row]
        ensures rows { result.now ≡ self.now.rows }
        ensures mapped { IsMapped self.now }
        ensures apart { AreApart self.now.rows }
        ensures room { length self.now.rows ≤ self.now.capacity }
    {
        self.rows.as_slice()
    }

    /// Hands out what is mapped, in the order of mapping, without unmapping it. No row is copied. Own.
    pub fn into_rows(self) -> Vec<Row>
        ensures { result.items ≡ self.rows }
    {
        self.rows.into_rows()
    }

    /// Whether a row is mapped. Rows are compared in all fields. Own.
    pub fn maps(&self, row: &Row) -> bool
        ensures { result ≡ list_any (is_row row.now) self.now.rows }
    {
        self.rows.as_slice().iter().any(|other| is_row(row, other))
    }

    /// Catches up with the log: unmaps the rows that the records after its number up to `to` drop, and then maps the rows
    /// that they bring, by rising address within each record, in the order of the log. What goes is told before it is
    /// unmapped, and what comes once all of it is mapped. Where the mapper refuses a row, or maps it elsewhere, what came is
    /// unmapped again. After eal_memalloc_sync_with_primary.
    pub fn catch_up<T: Tell>(&mut self, records: &[LogRecord], to: u64, tell: &mut T) -> Caught
        requires can { CanCatchUp self.old records.now to }
        requires spare { length (caught_events self.old.rows self.old.number (newer records.now self.old.number to)
            Caught.Done) ≤ T.spare tell.old }

        // Rows that no new record drops are never unmapped: the mapping calls are those of the new rows alone.
        ensures rows { self.new.rows
            ≡ rows_after (kept (newer records.now self.old.number to) self.old.rows)
            (new_rows self.old.number (newer records.now self.old.number to)) result }
        ensures answered { HasAnswered (new_rows self.old.number (newer records.now self.old.number to))
            self.old.answers self.new.answers result }
        ensures number { self.new.number ≡ number_after self.old.number to result }
        ensures capacity { self.new.capacity ≡ self.old.capacity }
        ensures cause { CountsFault self.old.faults self.new.faults (was_refused result) }
        ensures may_fail { self.new.may_fail ≡ self.old.may_fail }
        ensures reason { HasReason self.old.may_fail result }
        ensures mapped { IsMapped self.new }

        // Where all is mapped it is the table of the log, and else it lags by the records that it has seen.
        ensures table { is_done result ≡ true → table_in self.new.rows ≡ table_at records.now to }
        ensures lags { Lags records.now self.new.number to (table_in self.new.rows) }
        ensures chunks { chunk_rows self.new.rows ≡ chunk_rows self.old.rows }

        ensures told { T.told tell.new ≡ all_told (caught_events self.old.rows self.old.number
            (newer records.now self.old.number to) result) (T.told tell.old) }
        ensures spare { T.spare tell.old ≤ T.spare tell.new + length (caught_events self.old.rows self.old.number
            (newer records.now self.old.number to) result) }

        // Those that knew the rows before it know those after it, however it ended.
        ensures known { StayKnown self.old records.now to (T.told tell.old) self.new.rows (T.told tell.new) }
    {
        let newer = &records[self.number as usize..to as usize];
        tell_dropped(
            tell,
            &self.mapper,
            self.rows.as_slice(),
            self.rows.next(),
            newer,
        );
        let before = self.calls;
        let caught = self.catch_up_untold(records, to);
        tell_caught(
            tell,
            &self.mapper,
            &caught,
            self.rows.as_slice(),
            before,
            self.calls,
        );
        caught
    }

    /// Catches up with the log as `catch_up` does, and tells nobody: no row is looked at to be told. After eal_memalloc_sync_with_primary.
    pub fn catch_up_untold(&mut self, records: &[LogRecord], to: u64) -> Caught
        requires { CanCatchUp self.old records.now to }
        ensures rows { self.new.rows
            ≡ rows_after (kept (newer records.now self.old.number to) self.old.rows)
            (new_rows self.old.number (newer records.now self.old.number to)) result }
        ensures answered { HasAnswered (new_rows self.old.number (newer records.now self.old.number to))
            self.old.answers self.new.answers result }
        ensures number { self.new.number ≡ number_after self.old.number to result }
        ensures capacity { self.new.capacity ≡ self.old.capacity }
        ensures cause { CountsFault self.old.faults self.new.faults (was_refused result) }
        ensures may_fail { self.new.may_fail ≡ self.old.may_fail }
        ensures reason { HasReason self.old.may_fail result }
        ensures mapped { IsMapped self.new }
        ensures table { is_done result ≡ true → table_in self.new.rows ≡ table_at records.now to }
        ensures lags { Lags records.now self.new.number to (table_in self.new.rows) }
        ensures chunks { chunk_rows self.new.rows ≡ chunk_rows self.old.rows }
    {
        let caught = take_in(
            &mut self.mapper,
            &mut self.rows,
            &mut self.drops,
            self.number,
            &records[self.number as usize..to as usize],
            &mut self.calls,
        );
        self.number = number_after(self.number, to, &caught);
        caught
    }
}
