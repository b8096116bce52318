//! What a poll does in a round.
ghost use Rattle.std.specs.Prelude.{◌≡◌, None, option_copied};
ghost use Rattle.hp_segs.specs.Calls.{MayAgree, MayCancel};
ghost use Rattle.hp_segs.specs.Steps.{after_agree, after_cancel, lowest_below};
ghost use Rattle.hp_core.specs.Conditions.{HasSpare};
ghost use Rattle.hp_core.specs.Core.{IsDone, is_growth, is_open_for};
ghost use Rattle.hp_core.specs.Moves.{IsRoundMove, IsTimely};
ghost use Rattle.hp_core.specs.Rounds.{cancelled, drop_polled, ended, granted, growth_polled, polled, rolled_back, what_in};
ghost use Rattle.hp_core.specs.declared.times.Times.{Times};

use crate::answering::answer;
use crate::out::Out;
use crate::phase::{Next, Phase, Round, RoundKind};
use crate::times::Times;
use hp_segs::{Cause, Growth, Segs};

fn is_growth(kind: RoundKind) -> bool
    ensures { result ≡ is_growth kind }
{
    match kind {
        RoundKind::Growth => true,
        RoundKind::Rollback | RoundKind::Drop => false,
    }
}

// Whether the open growth is the one of the round.
pub(crate) fn is_open_for(round: &Round, growth: Option<&Growth>) -> bool
    ensures { result ≡ is_open_for round.now (option_copied growth.entry) }
{
    match growth {
        None => false,
        Some(growth) => {
            is_growth(round.kind)
                && growth.generation == round.generation
                && growth.ask.from == round.from
                && growth.ask.number == round.number
        }
    }
}

// What the answer to the ask of a round is.
fn what_in(kind: RoundKind) -> u8
    ensures { result ≡ what_in kind }
{
    match kind {
        RoundKind::Growth | RoundKind::Rollback => 2,
        RoundKind::Drop => 3,
    }
}

// The round ends, and its ask is answered.
pub(crate) fn end(segs: &Segs, round: &Round) -> Next
    ensures { IsDone segs.now result (ended round.now segs.now) }
{
    Next {
        phase: Phase::Idle,
        out: answer(segs, round.from, round.number, what_in(round.kind)),
    }
}

// The round waits.
pub(crate) fn wait(round: &Round, since: u64, out: Out) -> Next
    ensures phase { result.phase ≡ Phase.Waiting round.now since }
    ensures out { result.out ≡ out }
{
    Next {
        phase: Phase::Waiting {
            round: *round,
            since,
        },
        out,
    }
}

// The growth of a round is no longer open, and its rollback begins.
pub(crate) fn roll_back(segs: &Segs, round: &Round) -> Next
    ensures { IsDone segs.now result (rolled_back round.now segs.now) }
{
    let generation = segs.records().len() as u64;
    Next {
        phase: Phase::Mapping {
            round: Round {
                kind: RoundKind::Rollback,
                generation,
                from: round.from,
                number: round.number,
            },
        },
        out: Out::MapSelf { generation },
    }
}

// The growth is cancelled, and its rollback begins.
pub(crate) fn cancel(segs: &mut Segs, round: &Round, cause: Cause) -> Next
    requires may { MayCancel cause segs.old }
    ensures step { segs.new ≡ after_cancel cause segs.old }
    ensures done { IsDone segs.new result (cancelled round.now cause segs.old) }
{
    segs.cancel(cause);
    roll_back(segs, round)
}

// The growth is granted, and its ask is answered.
pub(crate) fn grant(segs: &mut Segs, round: &Round, acks: &[u64; 16]) -> Next
    requires may { MayAgree segs.old }
    ensures step { segs.new ≡ after_agree acks.now segs.old }
    ensures done { IsDone segs.new result (granted round.now acks.now segs.old) }
{
    let _ = segs.agree(acks);
    end(segs, round)
}

// A poll in the round of a growth.
fn poll_growth(segs: &mut Segs, round: &Round, times: Times, acks: &[u64; 16]) -> Next
    requires spare { HasSpare segs.old }
    ensures done { IsDone segs.new result (growth_polled round.now times acks.now segs.old) }
    ensures moves { IsRoundMove times acks.now segs.old segs.new }
{
    if !is_open_for(round, segs.growth()) {
        return roll_back(segs, round);
    }
    if let Some(cause) = segs.failed() {
        return cancel(segs, round, cause);
    }
    let Some(member) = segs.lowest_behind(acks, round.generation) else {
        return grant(segs, round, acks);
    };
    if !times.has_passed() {
        return wait(round, times.since, Out::Nothing);
    }
    let cause = Cause::Late {
        participant: member.participant,
        from: times.since,
        to: times.present,
    };
    cancel(segs, round, cause)
}

// A poll in the round of a rollback or a drop.
fn poll_drop(segs: &Segs, round: &Round, times: Times, acks: &[u64; 16]) -> Next
    ensures { IsDone segs.now result (drop_polled round.now times acks.now segs.now) }
{
    if segs.lowest_behind(acks, round.generation).is_none() || times.has_passed() {
        end(segs, round)
    } else {
        wait(round, times.since, Out::Nothing)
    }
}

// A poll in a round.
pub(crate) fn poll(segs: &mut Segs, round: &Round, times: Times, acks: &[u64; 16]) -> Next
    requires spare { HasSpare segs.old }
    ensures done { IsDone segs.new result (polled round.now times acks.now segs.old) }
    ensures moves { IsRoundMove times acks.now segs.old segs.new }
{
    match round.kind {
        RoundKind::Growth => poll_growth(segs, round, times, acks),
        RoundKind::Rollback | RoundKind::Drop => poll_drop(segs, round, times, acks),
    }
}
