//! The steps of a cell, by tokens.
ghost use Rattle.std.specs.Prelude.{◌≡◌, ◌≤◌, [], true};
ghost use Rattle.crossbeam_utils.specs.Seq.{IsSamePass, cell_view};
ghost use Rattle.hp_stats.specs.Pairs.{AreAmong, IsNotBelow, newest_of};
ghost use Rattle.hp_stats.specs.Views.{after_publish, after_see, new_reader};

use crate::roles::{Cell, Checks, Hear, NewReader, Publishes, Reads, Report, Tell, Token};
use crate::stat_pair::StatPair;
use std::sync::Wait;

// A token of a reader that has seen nothing.
pub(crate) fn dealt(cell: &Cell, pen: &mut Token) -> Token
    requires cell { pen.old.table_id ≡ cell.now.table.shared.table_id }
    ensures pen { IsSamePass pen.old pen.new × (cell_view pen.new ≡ cell_view pen.old) }
    ensures reader { (result.table_id ≡ pen.old.table_id) × (cell_view result ≡ new_reader) }
{
    cell.split_pass::<NewReader>(pen)
}

// Publishes a pair, and tells a reader of it.
pub(crate) fn publish<R: Wait>(
    rt: &R,
    cell: &Cell,
    pen: &mut Token,
    reader: &mut Token,
    pair: StatPair,
)
    requires cell { pen.old.table_id ≡ cell.now.table.shared.table_id }
    requires reader { reader.old.table_id ≡ cell.now.table.shared.table_id }
    requires pen { (cell_view pen.old).pen ≡ true }
    requires count { (newest_of (cell_view pen.old).published).entries ≤ pair.entries }
    ensures pen { IsSamePass pen.old pen.new × (cell_view pen.new ≡ after_publish pair (cell_view pen.old)) }
    ensures reader { IsSamePass reader.old reader.new × (cell_view reader.new ≡ after_see pair (cell_view reader.old)) }
{
    cell.swap_as::<Publishes, R>(rt, pen, pair);
    let told = cell.split_pass::<Tell>(pen);
    cell.join_pass::<Hear>(reader, told);
}

// Reads the newest pair.
pub(crate) fn read<R: Wait>(rt: &R, cell: &Cell, reader: &mut Token) -> StatPair
    requires cell { reader.old.table_id ≡ cell.now.table.shared.table_id }
    ensures reader { IsSamePass reader.old reader.new × (cell_view reader.new ≡ after_see result (cell_view reader.old)) }
    ensures not_below { IsNotBelow (cell_view reader.old).seen result.entries }
{
    cell.load_as::<Reads, R>(rt, reader)
}

// Shows that the pen has published what a reader has seen.
pub(crate) fn compare<R: Wait>(rt: &R, cell: &Cell, pen: &mut Token, reader: &mut Token)
    requires cell { pen.old.table_id ≡ cell.now.table.shared.table_id }
    requires reader { reader.old.table_id ≡ cell.now.table.shared.table_id }
    requires pen { ((cell_view pen.old).pen ≡ true) × ((cell_view pen.old).seen ≡ []) }
    ensures pen { IsSamePass pen.old pen.new × (cell_view pen.new ≡ cell_view pen.old) }
    ensures reader { IsSamePass reader.old reader.new × (cell_view reader.new ≡ cell_view reader.old) }
    ensures among { AreAmong (cell_view pen.old).published (cell_view reader.old).seen }
{
    let seen = cell.split_pass::<Report>(reader);
    cell.join_pass::<Hear>(pen, seen);
    cell.load_as::<Checks, R>(rt, pen);
}
