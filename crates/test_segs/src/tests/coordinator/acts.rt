//! What happens to a coordinator and its segment value, one act after another, with what each is answered.
ghost use Rattle.std.specs.Prelude.{◌≤◌};
ghost use Rattle.hp_base.specs.Participants.{IsAbsent};

use super::PAGE;
use super::calls::*;
use super::outs::{End, Said, end_of, out_of};
use hp_base::{Caught, PoolLine};
use hp_core::{Coordinator, Out};
use hp_frame::Body;
use hp_segs::Segs;
use std::alloc::{AllocError, Global};
use std::test::Fail;

/// One act. What is no event of the coordinator is answered by nothing.
#[derive(Clone, Copy)]
pub enum Act {
    // The participant arms itself with an ask of that number for a page.
    Arm(u8, u64),
    // It asks for it, and gives memory up.
    Grow(u8, u64),
    Shrink(u8, u64),
    // It takes the ask back.
    Withdraw(u8, u64),
    // Participant 0 has caught up when the clock reads that, or its mapping was refused.
    Mapped(u64),
    Failed(u64),
    // Another member's mapping was refused, by that call of its mapper.
    Refused(u64),
    // The clock reads that, and participants have acknowledged so much.
    Poll(u64, [u64; 16]),
    // Participant 0 has caught up so, without a record, and replies with that code.
    Follow(Caught, u8),
    // A new coordinator goes on, which opened no growth.
    Fresh,
    // Whether it holds an ask, and when the deadline of its round passes.
    Holds(bool),
    Due(Option<u64>),
}

// The act at that place, counted from 0, was answered otherwise.
#[derive(Debug, Drop)]
struct Otherwise {
    place: usize,
}

/// A pool of `pages` pages on socket 0, and so many participants.
pub fn segs_of(alloc: Global, participants: u8, pages: u64) -> Result<Segs, AllocError>
    requires participants { IsAbsent participants 0 }
    requires pages { pages ≤ 8192 }
{
    let line = PoolLine {
        socket: 0,
        page: PAGE,
        pages,
        slots: 4,
    };
    Segs::new(alloc, [line].as_slice(), participants, 0)
}

fn told(is_so: bool) -> Result<Out, Fail> {
    if is_so {
        Ok(Out::Nothing)
    } else {
        Err("what is expected".into())
    }
}

fn has_replied(segs: &mut Segs, caught: Caught, code: u8) -> Result<Out, Fail> {
    let wanted = Body::Answer {
        from: 0,
        number: 0,
        what: 1,
        code,
    };
    told(reply(segs, 0, caught)? == wanted)
}

fn perform(core: &mut Coordinator, segs: &mut Segs, act: Act) -> Result<Out, Fail> {
    match act {
        Act::Arm(from, number) => arm(segs, from, number),
        Act::Grow(from, number) => grow(core, segs, from, number),
        Act::Shrink(from, number) => shrink(core, segs, from, number),
        Act::Withdraw(from, number) => take_back(segs, from, number),
        Act::Mapped(now) => mapped(core, segs, Caught::Done, now),
        Act::Failed(now) => failed(core, segs, now),
        Act::Refused(call) => refuse(segs, call),
        Act::Poll(now, acks) => poll(core, segs, now, acks),
        Act::Follow(caught, code) => has_replied(segs, caught, code),
        Act::Fresh => {
            *core = Coordinator::new(200);
            Ok(Out::Nothing)
        }
        Act::Holds(held) => told(core.holds_ask() == held),
        Act::Due(due) => told(core.due() == due),
    }
}

// Each act is answered as it stands beside it.
fn go_on(core: &mut Coordinator, segs: &mut Segs, acts: &[(Act, Said)]) -> Result<(), Fail> {
    for place in 0..acts.len() {
        let (act, said) = acts[place];
        if perform(core, segs, act)? != out_of(said) {
            return Err(Otherwise { place }.into());
        }
    }
    Ok(())
}

// Whether these are the outcomes that are logged, and whether there are so many records.
fn has_ended(segs: &Segs, ends: &[(u8, u64, End)], records: usize) -> bool {
    let asks = segs.asks();
    if asks.len() != ends.len() || segs.records().len() != records {
        return false;
    }
    for place in 0..asks.len() {
        let entry = &asks[place];
        if (entry.from, entry.number, end_of(&entry.outcome)) != ends[place] {
            return false;
        }
    }
    true
}

/// So many participants, with a deadline of 200 and a pool of so many pages: each act is answered as it stands beside it, and then these
/// outcomes are logged, and so many records.
pub fn play(
    alloc: Global,
    participants: u8,
    pages: u64,
    acts: &[(Act, Said)],
    ends: &[(u8, u64, End)],
    records: usize,
) -> Result<(), Fail>
    requires participants { IsAbsent participants 0 }
    requires pages { pages ≤ 8192 }
{
    let mut segs = segs_of(alloc, participants, pages)?;
    let mut core = Coordinator::new(200);
    go_on(&mut core, &mut segs, acts)?;
    if !has_ended(&segs, ends, records) {
        return Err("the outcomes and records that are expected".into());
    }
    Ok(())
}
