//! A turn of a participant that obeys: it takes in what came to the log, and notes where its mapper failed.
ghost use Rattle.std.specs.Prelude.{◌≡◌, true, []};
ghost use Rattle.test_board.specs.Asking.{IsRefusedIn, refuses};
ghost use Rattle.test_board.specs.Playing.{HasComeOn, HasTurned, HoldsSegs, IsBack, IsNotedIn, IsPlaying};

use super::member::{Maps, give_segs, take_in, take_segs};
use super::stepping::note;
use hp_board::{Board, Seat};
use hp_segs::{Outcome, Segs};
use std::snapshot::Snapshot;
use std::sync::Wait;
use std::thread;

/// What a participant saw in its turn: how many records the log had, and whether its ask of that number was refused.
#[derive(Clone, Copy)]
pub struct Looked {
    pub records: u64,
    pub refused: bool,
}

// Whether the answer of an ask refuses it.
fn refuses(outcome: Option<Outcome>) -> bool
    ensures { result ≡ refuses outcome }
{
    match outcome {
        Some(Outcome::Refused { .. }) => true,
        Some(Outcome::Granted { .. } | Outcome::Stale { .. } | Outcome::Freed { .. }) | None =>
            false,
    }
}

// Whether an ask was refused.
fn is_refused(segs: &Segs, who: u8, number: u64) -> bool
    ensures { result ≡ true → IsRefusedIn segs.now.asks who number }
{
    let _records = segs.records();
    refuses(segs.grant_or_refusal(who, number))
}

// Where something came, the table catches up with the log of the value in hand, and a mapping that failed is noted in that.
fn taken_in(
    board: &Board,
    seat: &mut Seat,
    maps: &mut Maps,
    who: u8,
    segs: Segs,
    fresh: bool,
) -> Segs
    requires holds { HoldsSegs board.now.id segs seat.old maps.old }
    requires who { who ≡ seat.old.mine.who }
    ensures holds { HoldsSegs board.now.id segs seat.new maps.new }
    ensures comes { HasComeOn seat.old.mine seat.new.mine }
    ensures noted { IsNotedIn segs result }
{
    if !fresh {
        return segs;
    }
    let caught = take_in(board, seat, maps, &segs);
    let mut noted = segs;
    note(&mut noted, who, &caught);
    noted
}

/// A turn: where the log has more records than it had, the table catches up with it once.
pub fn obey<R: Wait>(
    rt: &R,
    board: &Board,
    seat: &mut Seat,
    maps: &mut Maps,
    before: Looked,
    number: u64,
) -> Looked
    requires playing { IsPlaying board.now.id seat.old maps.old }
    ensures playing { IsPlaying board.now.id seat.new maps.new }
    ensures turned { HasTurned seat.old.mine seat.new.mine }
    ensures refused { result.refused ≡ true → IsRefusedIn seat.new.mine.heard seat.old.mine.who number }
{
    let segs = take_segs(rt, board, seat, maps);
    let taken = Snapshot::of(&segs);
    let who = seat.participant();
    let records = segs.records().len() as u64;
    let refused = is_refused(&segs, who, number);
    let given = taken_in(board, seat, maps, who, segs, records > before.records);
    give_segs(board, seat, maps, &taken, given);
    Looked { records, refused }
}

/// Whether a table has taken in so many records.
pub fn has_taken_in(maps: &Maps, records: u64) -> bool {
    maps.number() >= records
}

/// All turns of a participant that only obeys, until its table has taken in so many records.
pub fn obey_all<R: Wait>(
    rt: &R,
    board: &Board,
    seat: Seat,
    maps: Maps,
    records: u64,
) -> (Seat, Maps)
    requires playing { IsPlaying board.now.id seat maps }
    requires free { seat.mine.held ≡ [] }
    ensures back { IsBack board.now.id seat.mine.who result.0 }
{
    let mut seat = seat;
    let mut maps = maps;
    let mut looked = Looked {
        records: 0,
        refused: false,
    };
    for _ in rt.forever() {
        looked = obey(rt, board, &mut seat, &mut maps, looked, 0);
        if has_taken_in(&maps, records) {
            return (seat, maps);
        }
        thread::yield_now();
    }
    unreachable!()
}
