//! Shares a heap and a roster: `bench_board RUNS TIMES` opens a board RUNS times. Each time three participants call one heap 200
//! times each, on threads of their own. Then it opens one board more, on which two participants attach and detach TIMES times each,
//! while a third takes in the log. At last two try the same slot, and one awaits a line of another.
#![tactic(auto)]

mod awaits;
mod heaps;
mod locks;
mod members;
mod opening;
mod rounds;
mod segs;
mod session;
mod visited;
mod visits;

use awaits::awaited;
use hp_board::Closed;
use hp_heap::Entry;
use locks::named;
use session::shared;
use std::alloc::Global;
use std::num::ParseIntError;
use std::sync::Wait;
use std::thread::Threads;
use std::{env, io};
use visited::visited;

fn main(rt: HostRuntime) -> io::Result<()> {
    let mut args = env::args(&rt)?;
    let _name = args.next();
    let runs = number(args.next());
    let times = number(args.next());
    let mut whole: u32 = 0;
    for _ in 0..runs {
        if shares_a_heap(&rt, rt.alloc()) {
            whole += 1;
        }
    }
    println!(rt; "{whole} of {runs} runs with 600 entries, each numbered")?;
    let roster = roster_after(&rt, rt.alloc(), u64::from(times));
    println!(rt; "roster {roster} after {times} visits of each of two participants")?;
    let is_named = is_named(rt.alloc());
    let found = entries_found(&rt, rt.alloc());
    println!(rt; "a locked slot names its holder: {is_named}; an awaited line has {found} entries")
}

// Whether a locked slot names its holder; not where memory ran out.
fn is_named(alloc: Global) -> bool {
    match named(alloc) {
        Ok(is_named) => is_named,
        Err(_) => false,
    }
}

// How many entries one finds that awaits a line of another, which makes two; 0 where memory ran out.
fn entries_found<R: Threads + Wait + Sync>(rt: &R, alloc: Global) -> usize {
    match awaited(rt, alloc) {
        Ok(found) => found,
        Err(_) => 0,
    }
}

// The roster once two participants have attached and detached so many times; 0 where memory ran out.
fn roster_after<R: Threads + Wait + Sync>(rt: &R, alloc: Global, times: u64) -> u16 {
    match visited(rt, alloc, times) {
        Ok(closed) => closed.segs.roster(),
        Err(_) => 0,
    }
}

// Whether three participants share a heap so that its history is whole.
fn shares_a_heap<R: Threads + Wait + Sync>(rt: &R, alloc: Global) -> bool {
    match shared(rt, alloc) {
        Ok(closed) => match closed.heaps.first() {
            Some(heap) => is_whole(heap.history()),
            None => false,
        },
        Err(_) => false,
    }
}

// Whether the history has 200 entries of each of three participants, each numbered from 1.
fn is_whole(history: &[Entry]) -> bool {
    history.len() == 600
        && count_of(history, 0) == Some(200)
        && count_of(history, 1) == Some(200)
        && count_of(history, 2) == Some(200)
}

// How many entries a participant has, where they are numbered from 1.
fn count_of(history: &[Entry], who: u8) -> Option<u64> {
    let mut count = 0;
    for entry in history {
        if entry.caller.participant == who {
            if entry.caller.number != count + 1 {
                return None;
            }
            count += 1;
        }
    }
    Some(count)
}

// The number that a word spells, or 0.
fn number(word: Option<String>) -> u32 {
    match word {
        Some(word) => {
            let parsed: Result<u32, ParseIntError> = word.as_str().parse();
            parsed.unwrap_or(0)
        }
        None => 0,
    }
}
