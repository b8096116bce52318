//! What participant 1 does: it holds a heap, arms an ask for a page for it, and gives the heap back once the ask is refused.
ghost use Rattle.std.specs.Prelude.{◌≡◌, ◌<◌, [], true, None, Some, IfNone, IfSome};
ghost use Rattle.hp_segs.specs.LaterSteps.{armed_ask};
ghost use Rattle.hp_segs.specs.SegsView.{closed_number};
ghost use Rattle.hp_hall.specs.Views.{HeldHeap};
ghost use Rattle.hp_segs.specs.Standing.{IsArmed};
ghost use Rattle.test_board.specs.Asking.{IsArmedWith, IsAsking};
ghost use Rattle.test_board.specs.Playing.{IsBack, IsPlaying};

use super::member::{Maps, give_segs, take_segs};
use super::obeying::{Looked, has_taken_in, obey};
use super::{HEAP, PAGE};
use hp_base::Request;
use hp_board::{Board, Seat};
use hp_segs::{Ask, Segs};
use hp_turn::{give, take};
use std::snapshot::Snapshot;
use std::sync::Wait;
use std::thread;

// The number of its next ask.
fn next_number(segs: &Segs) -> Option<u64>
    ensures { IfSome result (λ number. closed_number segs.now.asks 1 < number) }
{
    segs.closed(1).checked_add(1)
}

// Arms participant 1, which has no ask, with its next one: for a page for heap 0.
fn armed(segs: &mut Segs, request: &Request) -> Option<Ask>
    requires asks { IsArmed segs.old }
    requires unarmed { armed_ask segs.old 1 ≡ None }
    ensures some { IfSome result (λ ask. IsArmedWith ask segs.old segs.new) }
    ensures none { IfNone result (segs.new ≡ segs.old) }
{
    let Some(number) = next_number(segs) else {
        return None;
    };
    let ask = Ask {
        from: 1,
        number,
        heap: 0,
        socket: 0,
        page: PAGE,
        request: *request,
    };
    if segs.arm(&ask).is_err() {
        return None;
    }
    Some(ask)
}

// A turn in which participant 1, which has no ask, is armed; without memory for that, or numbers, it is not.
fn arm<R: Wait>(
    rt: &R,
    board: &Board,
    seat: &mut Seat,
    maps: &Maps,
    request: &Request,
) -> Option<Ask>
    requires playing { IsPlaying board.now.id seat.old maps.now }
    requires asks { (heap : HeldHeap) × IsAsking heap None seat.old.mine }
    ensures playing { IsPlaying board.now.id seat.new maps.now }
    ensures asks { IfSome result (λ ask. (heap : HeldHeap) → IsAsking heap None seat.old.mine → IsAsking heap (Some ask) seat.new.mine) }
    ensures from { IfSome result (λ ask. ask.from ≡ 1) }
{
    let segs = take_segs(rt, board, seat, maps);
    let taken = Snapshot::of(&segs);
    let mut given = segs;
    let ask = armed(&mut given, request);
    give_segs(board, seat, maps, &taken, given);
    ask
}

// Whether its ask was refused, and its table has taken in so many records.
fn is_over(looked: Looked, maps: &Maps, records: u64) -> bool
    ensures { result ≡ true → looked.refused ≡ true }
{
    looked.refused && has_taken_in(maps, records)
}

/// All turns of participant 1; it comes back where its ask was refused and its table has taken in so many records.
pub fn ask_for_a_page<R: Wait>(
    rt: &R,
    board: &Board,
    seat: Seat,
    maps: Maps,
    request: &Request,
    records: u64,
) -> Option<(Seat, Maps)>
    requires playing { IsPlaying board.now.id seat maps }
    requires first { seat.mine.who ≡ 1 }
    requires new { (seat.mine.held ≡ []) × (seat.mine.holdings ≡ []) × (seat.mine.armed ≡ None) × (seat.mine.made ≡ []) }
    requires unclaimed { seat.mine.claims ≡ None }
    ensures back { IfSome result (λ back. IsBack board.now.id 1 back.0) }
{
    let mut seat = seat;
    let mut maps = maps;
    let kept = take(rt, board, &mut seat, HEAP);
    let Some(ask) = arm(rt, board, &mut seat, &maps, request) else {
        return None;
    };
    let mut looked = Looked {
        records: 0,
        refused: false,
    };
    for _ in rt.forever() {
        looked = obey(rt, board, &mut seat, &mut maps, looked, ask.number);
        if is_over(looked, &maps, records) {
            give(board, &mut seat, HEAP, kept);
            return Some((seat, maps));
        }
        thread::yield_now();
    }
    unreachable!()
}
