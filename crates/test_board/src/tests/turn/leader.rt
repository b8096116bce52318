//! What participant 0 does: it hands its coordinator the ask that somebody is armed with, and carries that through.
ghost use Rattle.std.specs.Prelude.{◌≡◌, ◌<◌, ℕ, [], true, length, IfSome};
ghost use Rattle.hp_core.specs.Conditions.{NamesParticipants};
ghost use Rattle.hp_hall.specs.Giving.{GivesSegments, Knows};
ghost use Rattle.hp_hall.specs.Standings.{LeavesStanding};
ghost use Rattle.hp_segs.specs.Sound.{IsSound};
ghost use Rattle.hp_serve.specs.Coordinating.{IsTrueOf};
ghost use Rattle.hp_board.specs.Views.{noted_of};
ghost use Rattle.test_board.specs.Playing.{HasComeOn, HasTurned, HoldsSegs, IsBack, IsPlaying};

use super::loading::load_all;
use super::member::{Maps, give_segs, take_in, take_segs};
use super::stepping::step;
use hp_board::{Board, Seat};
use hp_core::{Coordinator, CoreEvent, Out};
use hp_segs::Segs;
use std::alloc::AllocError;
use std::snapshot::Snapshot;
use std::sync::Wait;
use std::thread;

// What it does next.
#[derive(Clone, Copy)]
enum Next {
    // It waits for the ask of participant 1.
    Start,
    // It catches up for its coordinator.
    Map,
    // It polls.
    Poll,
    // It is done: the ask was answered.
    End,
}

// Whether there may be a participant of that number.
fn is_declared(who: u8) -> bool
    ensures { result ≡ true → who < 16 }
{
    who < 16
}

// The ask with which participant 1 is armed.
fn ask_of(segs: &Segs) -> Option<CoreEvent>
    ensures names { IfSome result NamesParticipants }
    ensures known { (noted : ℕ → ℕ) (records : ℕ) → IfSome result (IsTrueOf noted records) }
{
    let Some(ask) = segs.armed(1) else {
        return None;
    };
    if !is_declared(ask.from) {
        return None;
    }
    Some(CoreEvent::Grow { ask })
}

// Participant 0 has caught up, or has failed to.
fn mapped_of(board: &Board, seat: &mut Seat, maps: &mut Maps, segs: &Segs) -> Option<CoreEvent>
    requires holds { HoldsSegs board.now.id segs.now seat.old maps.old }
    requires first { seat.old.mine.who ≡ 0 }
    ensures holds { HoldsSegs board.now.id segs.now seat.new maps.new }
    ensures comes { HasComeOn seat.old.mine seat.new.mine }
    ensures names { IfSome result NamesParticipants }
    ensures known { IfSome result (IsTrueOf (λ who. noted_of who seat.new.mine) (length segs.now.log)) }
{
    let Some(caught) = take_in(board, seat, maps, segs) else {
        return None;
    };
    Some(CoreEvent::SelfMapped { caught, now: 0 })
}

// A poll, by the numbers of all.
fn poll_of(board: &Board, seat: &mut Seat, maps: &Maps, segs: &Segs) -> CoreEvent
    requires holds { HoldsSegs board.now.id segs.now seat.old maps.now }
    ensures holds { HoldsSegs board.now.id segs.now seat.new maps.now }
    ensures comes { HasComeOn seat.old.mine seat.new.mine }
    ensures names { NamesParticipants result }
    ensures known { IsTrueOf (λ who. noted_of who seat.new.mine) (length segs.now.log) result }
{
    let acks = load_all(board, seat);
    CoreEvent::Poll { now: 0, acks }
}

// The event of a turn, with the segment value in hand.
fn event_of(
    board: &Board,
    seat: &mut Seat,
    maps: &mut Maps,
    segs: &Segs,
    next: Next,
) -> Option<CoreEvent>
    requires holds { HoldsSegs board.now.id segs.now seat.old maps.old }
    requires first { seat.old.mine.who ≡ 0 }
    ensures holds { HoldsSegs board.now.id segs.now seat.new maps.new }
    ensures comes { HasComeOn seat.old.mine seat.new.mine }
    ensures names { IfSome result NamesParticipants }
    ensures known { IfSome result (IsTrueOf (λ who. noted_of who seat.new.mine) (length segs.now.log)) }
{
    match next {
        Next::Start => ask_of(segs),
        Next::Map => mapped_of(board, seat, maps, segs),
        Next::Poll => Some(poll_of(board, seat, maps, segs)),
        Next::End => None,
    }
}

// What an answer of the coordinator asks for.
fn next_after(out: Out) -> Next {
    match out {
        Out::MapSelf { .. } => Next::Map,
        Out::Sync { .. } | Out::Nothing => Next::Poll,
        Out::Answer { .. } => Next::End,
    }
}

// What is next, by what the coordinator said; without memory for its step that is tried again.
fn next_said(said: Result<Out, AllocError>, next: Next) -> Next {
    match said {
        Ok(out) => next_after(out),
        Err(_) => next,
    }
}

// The coordinator takes the event, where there is one; what is next then.
fn handed(core: &mut Coordinator, segs: &mut Segs, event: Option<CoreEvent>, next: Next) -> Next
    requires names { IfSome event NamesParticipants }
    requires sound { IsSound segs.old }
    ensures gives { (knows : Knows) → IfSome event (IsTrueOf knows.noted (length segs.old.log)) → GivesSegments knows segs.old segs.new }
    ensures leaves { LeavesStanding segs.old segs.new }
    ensures roster { segs.new.roster ≡ segs.old.roster }
{
    let Some(its) = event else {
        return next;
    };
    let said = step(core, segs, its);
    next_said(said, next)
}

// A turn.
fn lead<R: Wait>(
    rt: &R,
    board: &Board,
    seat: &mut Seat,
    maps: &mut Maps,
    core: &mut Coordinator,
    next: Next,
) -> Next
    requires playing { IsPlaying board.now.id seat.old maps.old }
    requires first { seat.old.mine.who ≡ 0 }
    ensures playing { IsPlaying board.now.id seat.new maps.new }
    ensures turned { HasTurned seat.old.mine seat.new.mine }
{
    let segs = take_segs(rt, board, seat, maps);
    let taken = Snapshot::of(&segs);
    let event = event_of(board, seat, maps, &segs, next);
    let mut given = segs;
    let next = handed(core, &mut given, event, next);
    give_segs(board, seat, maps, &taken, given);
    next
}

// Whether the ask was answered.
fn is_end(next: Next) -> bool {
    match next {
        Next::End => true,
        Next::Start | Next::Map | Next::Poll => false,
    }
}

/// All turns of participant 0, until the ask is answered.
pub fn lead_all<R: Wait>(rt: &R, board: &Board, seat: Seat, maps: Maps) -> (Seat, Maps)
    requires playing { IsPlaying board.now.id seat maps }
    requires first { seat.mine.who ≡ 0 }
    requires free { seat.mine.held ≡ [] }
    ensures back { IsBack board.now.id 0 result.0 }
{
    let mut seat = seat;
    let mut maps = maps;
    let mut core = Coordinator::new(1_000);
    let mut next = Next::Start;
    for _ in rt.forever() {
        next = lead(rt, board, &mut seat, &mut maps, &mut core, next);
        if is_end(next) {
            return (seat, maps);
        }
        thread::yield_now();
    }
    unreachable!()
}
