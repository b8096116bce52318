ghost use Rattle.std.specs.Prelude.{◌≡◌, ◌<◌};
ghost use Rattle.bench_board.specs.Visits.{Changes, HoldsAll, IsReady, IsReadyAgain};

use hp_board::{Board, Seat};
use hp_segs::Segs;
use hp_turn::{Kept, Slot, give, take};
use std::sync::Wait;

const SLOT: Slot = Slot::Segments;

// Takes the segment value, and acknowledges all of its log.
fn take_all<R: Wait>(rt: &R, board: &Board, seat: &mut Seat) -> Segs
    requires ready { IsReady board.now.id seat.old }
    ensures board { seat.new.board ≡ seat.old.board }
    ensures holds { HoldsAll seat.old.mine result seat.new.mine }
{
    let segs = take(rt, board, seat, SLOT).into_segments();
    board.ack(seat, segs.records().len() as u64);
    segs
}

// A turn of a participant that only takes in the log.
pub fn follow<R: Wait>(rt: &R, board: &Board, seat: &mut Seat)
    requires ready { IsReady board.now.id seat.old }
    ensures ready { IsReadyAgain board.now.id seat.old seat.new }
{
    let segs = take_all(rt, board, seat);
    give(board, seat, SLOT, Kept::Segments { segs });
}

// A secondary that has taken in the whole log joins, or it leaves.
fn changed(segs: Segs, who: u8) -> Segs
    requires secondary { 0 < who }
    requires declared { who < 3 }
    ensures { Changes who segs result }
{
    let mut segs = segs;
    if segs.is_member(who) {
        segs.leave_roster(who);
        return segs;
    }
    let records = segs.records().len() as u64;
    segs.join_roster(who, records);
    segs
}

// A turn of a secondary that attaches where it is out, and detaches where it is in.
pub fn change<R: Wait>(rt: &R, board: &Board, seat: &mut Seat)
    requires ready { IsReady board.now.id seat.old }
    requires secondary { 0 < seat.old.mine.who }
    ensures ready { IsReadyAgain board.now.id seat.old seat.new }
{
    let segs = take_all(rt, board, seat);
    let segs = changed(segs, seat.participant());
    give(board, seat, SLOT, Kept::Segments { segs });
}
