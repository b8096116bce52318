//! A workload that is run on threads, over mappers in memory that refuse nothing and clocks that stand still at first.
use super::clocks::StandingClock;
use hp_base::{Gate, MAX_WORKLOAD_BYTES};
use hp_report::Ended;
use hp_run::{ended_on_threads, mem_kits};
use std::alloc::{AllocError, Global};
use std::sync::Wait;
use std::thread::Threads;

/// What the workload of that text leaves, each participant on a thread of its own, by that gate. It is refused as one that wants memory is.
pub fn ran<'a, G: Gate + Sync, R: Threads + Wait + Sync>(
    rt: &R,
    alloc: Global,
    text: &'a str,
    gate: &G,
) -> Result<Ended<'a>, AllocError> {
    let bytes = text.as_bytes();
    if bytes.len() > MAX_WORKLOAD_BYTES {
        return Err(AllocError);
    }
    let kits = mem_kits(alloc, StandingClock::new())?;
    match ended_on_threads(rt, alloc, bytes, kits, gate) {
        Ok(ended) => Ok(ended),
        Err(_) => Err(AllocError),
    }
}
