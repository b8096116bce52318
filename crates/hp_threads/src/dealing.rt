//! A place at the board for each participant: mailboxes with the passes to them, and statistics.
ghost use Rattle.std.specs.Prelude.{◌≡◌, ◌≤◌, [], IfOk, length, map, replicate, vec_len, zip};
ghost use Rattle.hp_base.specs.declared.limits.TheConstants.{MAX_PARTICIPANTS};
ghost use Rattle.hp_threads.specs.Dealing.{ArePlaced, longer};

use crate::newcomer::Newcomer;
use crate::passes::Passes;
use crate::worker::Worker;
use hp_base::{Clock, MAX_PARTICIPANTS, Mapper};
use hp_board::Seat;
use hp_mail::{Mailbox, Pass};
use hp_serve::Decide;
use hp_stats::StatPass;
use std::alloc::{AllocError, Global};

// How many frames a mailbox has room for.
const MAILBOX_FRAMES: usize = 64;

/// A mailbox for each participant, by its number, and each one's passes to all of them.
#[derive(Drop)]
pub struct Dealt {
    pub boxes: Vec<Mailbox>,
    pub all_passes: Vec<Passes>,
}

// No pass yet for each of so many.
fn no_passes(alloc: Global, participants: u8) -> Result<Vec<Passes>, AllocError>
    ensures { IfOk result (λ all. all.items ≡ replicate participants []) }
{
    let mut all = Vec::with_capacity(alloc, participants as usize)?;
    for _who in 0..participants {
        all.push_reserved(Passes::new(alloc));
    }
    Ok(all)
}

// Each of them gets the pass of its number.
fn hand_out(
    alloc: Global,
    all_passes: Vec<Passes>,
    passes: Vec<Pass>,
) -> Result<Vec<Passes>, AllocError>
    requires { vec_len passes ≡ vec_len all_passes }
    ensures { IfOk result (λ all. all.items ≡ map longer (zip all_passes.items passes.items)) }
{
    let mut all_passes = all_passes;
    let mut passes = passes;
    let mut all = Vec::with_capacity(alloc, all_passes.len())?;
    while !all_passes.is_empty() {
        let mut one = all_passes.remove(0);
        one.push(passes.remove(0))?;
        all.push_reserved(one);
    }
    Ok(all)
}

/// Mailboxes for so many, which are empty, and the passes to them.
pub fn boxes_for(alloc: Global, participants: u8) -> Result<Dealt, AllocError>
    requires { participants ≤ MAX_PARTICIPANTS }
    ensures count { IfOk result (λ dealt. length dealt.boxes.items ≡ participants) }
    ensures placed { IfOk result (λ dealt. ArePlaced participants dealt.boxes.items dealt.all_passes.items) }
{
    let mut boxes = Vec::with_capacity(alloc, participants as usize)?;
    let mut all_passes = no_passes(alloc, participants)?;
    for owner in 0..participants {
        let (mailbox, passes) = Mailbox::new(alloc, MAILBOX_FRAMES, participants, owner)?;
        all_passes = hand_out(alloc, all_passes, passes)?;
        boxes.push_reserved(mailbox);
    }
    Ok(Dealt { boxes, all_passes })
}

/// Each newcomer gets the seat and the passes of its number.
pub fn seated<'p, M: Mapper, C: Clock, F: Decide + Copy + Drop>(
    alloc: Global,
    newcomers: Vec<Newcomer<'p, M, C, F>>,
    seats: Vec<Seat>,
    all_passes: Vec<Passes>,
    stats: Vec<StatPass>,
) -> Result<Vec<Worker<'p, M, C, F>>, AllocError>
    requires seats { length seats.items ≡ length newcomers.items }
    requires passes { length all_passes.items ≡ length newcomers.items }
    requires stats { length stats.items ≡ length newcomers.items }
    ensures newcomers { IfOk result (λ workers. map (λ worker. worker.doer) workers.items ≡ newcomers.entry.items) }
    ensures seats { IfOk result (λ workers. map (λ worker. worker.seat) workers.items ≡ seats.items) }
    ensures passes { IfOk result (λ workers. map (λ worker. worker.passes) workers.items ≡ all_passes.items) }
    ensures stats { IfOk result (λ workers. map (λ worker. worker.stats) workers.items ≡ stats.items) }
{
    let mut newcomers = newcomers;
    let mut seats = seats;
    let mut all_passes = all_passes;
    let mut stats = stats;
    let mut workers = Vec::with_capacity(alloc, newcomers.len())?;
    while !newcomers.is_empty() {
        workers.push_reserved(Worker {
            newcomer: newcomers.remove(0),
            seat: seats.remove(0),
            passes: all_passes.remove(0).into_list(),
            stats: stats.remove(0),
        });
    }
    Ok(workers)
}
