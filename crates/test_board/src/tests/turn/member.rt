//! What a participant has on its thread, and how it takes and gives the segment value.
ghost use Rattle.std.specs.Prelude.{◌≡◌, ◌^◌, ◌≤◌, true, false, length, None, IfSome};
ghost use Rattle.hp_base.specs.Mapping.{is_done};
ghost use Rattle.hp_core.specs.Following.{failure_of};
ghost use Rattle.hp_hall.specs.Giving.{GivesSegments};
ghost use Rattle.hp_maps.specs.MapsView.{calls_of};
ghost use Rattle.hp_segs.specs.SegsView.{is_member};
ghost use Rattle.hp_serve.specs.Tied.{own_after};
ghost use Rattle.hp_board.specs.Knowing.{knows_of};
ghost use Rattle.hp_board.specs.Views.{own_of};
ghost use Rattle.test_board.specs.Playing.{HasComeOn, HasGiven, HasSegs, HoldsSegs, IsPlaying};

use super::SEGMENTS;
use hp_base::{Caught, MemMapper, Silent};
use hp_board::{Board, Seat};
use hp_maps::LocalMaps;
use hp_segs::{Segs, log_law};
use hp_turn::{Kept, give, take};
use std::snapshot::Snapshot;
use std::sync::Wait;

/// The table of a participant.
pub type Maps = LocalMaps<MemMapper>;

// A table whose mapper has made more calls than these is left as it is.
const MOST_CALLS: u64 = 1 << 63;

/// A participant takes the segment value.
pub fn take_segs<R: Wait>(rt: &R, board: &Board, seat: &mut Seat, maps: &Maps) -> Segs
    requires playing { IsPlaying board.now.id seat.old maps.now }
    ensures holds { HoldsSegs board.now.id result seat.new maps.now }
    ensures has { HasSegs seat.old.mine result seat.new.mine }
{
    take(rt, board, seat, SEGMENTS).into_segments()
}

/// It gives another one in place of the taken one, in which it is in the roster as well.
pub fn give_segs(board: &Board, seat: &mut Seat, maps: &Maps, taken: &Snapshot<Segs>, given: Segs)
    requires holds { HoldsSegs board.now.id taken.now.value seat.old maps.now }
    requires gives { GivesSegments (knows_of seat.old.mine) taken.now.value given }
    requires member { is_member given.roster seat.old.mine.who ≡ true }
    ensures playing { IsPlaying board.now.id seat.new maps.now }
    ensures given { HasGiven seat.old.mine given seat.new.mine }
{
    give(board, seat, SEGMENTS, Kept::Segments { segs: given });
}

// Whether a table is left as it is.
fn is_worn(maps: &Maps) -> bool
    ensures fresh { result ≡ false → calls_of maps.now ≤ 2 ^ 63 }
{
    maps.calls() > MOST_CALLS
}

/// Its table catches up with the log of the value in hand, and it acknowledges that, or tells what it has unmapped.
pub fn take_in(board: &Board, seat: &mut Seat, maps: &mut Maps, segs: &Segs) -> Option<Caught>
    requires holds { HoldsSegs board.now.id segs.now seat.old maps.old }
    ensures holds { HoldsSegs board.now.id segs.now seat.new maps.new }
    ensures comes { HasComeOn seat.old.mine seat.new.mine }
    ensures done { IfSome result (λ caught. failure_of caught ≡ None → length segs.now.log ≡ seat.new.mine.number) }
{
    if is_worn(maps) {
        return None;
    }
    log_law();
    let _rows = maps.rows();
    let records = segs.records();
    let to = records.len() as u64;
    let caught = maps.catch_up(records, to, &mut Silent);
    tell(board, seat, &caught, to);
    Some(caught)
}

// Whether all rows were mapped.
fn is_done(caught: &Caught) -> bool
    ensures { result ≡ is_done caught.now }
{
    match caught {
        Caught::Done => true,
        Caught::Refused { .. } | Caught::Elsewhere { .. } => false,
    }
}

// It acknowledges so many records where all rows are mapped, and else tells that it has unmapped what it has seen to be dropped.
fn tell(board: &Board, seat: &mut Seat, caught: &Caught, records: u64)
    requires board { seat.old.board ≡ board.now.id }
    requires joined { seat.old.mine.joined ≡ true }
    requires rises { seat.old.mine.number ≤ records }
    requires seen { records ≡ length seat.old.mine.log }
    ensures board { seat.new.board ≡ seat.old.board }
    ensures comes { HasComeOn seat.old.mine seat.new.mine }
    ensures own { own_of seat.new.mine ≡ own_after caught.now records (own_of seat.old.mine) }
{
    if is_done(caught) {
        board.ack(seat, records);
        return;
    }
    board.note_unmapped(seat);
}
