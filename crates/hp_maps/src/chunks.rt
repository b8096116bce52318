//! The rows of a chunk.
ghost use Rattle.std.specs.Prelude.{◌≡◌, ◌/◌, ◌^◌, ◌<◌};
ghost use Rattle.hp_base.specs.Mapping.{owned};
ghost use Rattle.hp_maps.specs.Chunks.{is_of_chunk, rows_beside, run_of_chunk};

use crate::row_list::RowList;
use hp_base::{Chunk, Mapper, Row, Run};

/// All slots of a chunk's list.
pub fn run_of_chunk(chunk: &Chunk) -> Run
    requires page { 0 < chunk.now.page }
    requires pages { chunk.now.len / chunk.now.page < 2 ^ 32 }
    ensures { result ≡ run_of_chunk chunk.now }
{
    Run {
        list: chunk.list,
        first: 0,
        count: (chunk.len / chunk.page) as u32,
        addr: chunk.addr,
        page: chunk.page,
        socket: chunk.socket,
    }
}

/// Unmaps the rows of a chunk, and takes them out.
pub fn drop_chunk<M: Mapper>(mapper: &mut M, rows: &mut RowList, chunk: &Chunk)
    requires { M.held mapper.old ≡ owned rows.old.items }
    ensures rows { rows.new.items ≡ rows_beside chunk.now rows.old.items }
    ensures memory { rows.new.memory ≡ rows.old.memory }
    ensures held { M.held mapper.new ≡ owned rows.new.items }
    ensures capacity { M.capacity mapper.new ≡ M.capacity mapper.old }
    ensures answers { M.answers mapper.new ≡ M.answers mapper.old }
    ensures faults { M.faults mapper.new ≡ M.faults mapper.old }
    ensures may_fail { M.may_fail mapper.new ≡ M.may_fail mapper.old }
{
    unmap_chunk(mapper, rows.as_slice(), chunk);
    rows.retain_beside(chunk);
}

fn unmap_chunk<M: Mapper>(mapper: &mut M, rows: &[Row], chunk: &Chunk)
    requires { M.held mapper.old ≡ owned rows.now }
    ensures held { M.held mapper.new ≡ owned (rows_beside chunk.now rows.now) }
    ensures capacity { M.capacity mapper.new ≡ M.capacity mapper.old }
    ensures answers { M.answers mapper.new ≡ M.answers mapper.old }
    ensures faults { M.faults mapper.new ≡ M.faults mapper.old }
    ensures may_fail { M.may_fail mapper.new ≡ M.may_fail mapper.old }
{
    for row in rows {
        if is_of_chunk(chunk, row) {
            mapper.unmap(row);
        }
    }
}

/// Whether a row is one of a chunk's.
pub fn is_of_chunk(chunk: &Chunk, row: &Row) -> bool
    ensures { result ≡ is_of_chunk chunk.now row.now }
{
    row.generation == 0 && row.list == chunk.list
}
