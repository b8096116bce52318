//! Times the free lists: `bench_freelist STEPS SEARCHES` inserts 20,000 keys, removes and inserts one of them STEPS times, and
//! searches past all of them SEARCHES times.
#![tactic(auto)]

mod work;

use hp_freelist::Lists;
use std::num::ParseIntError;
use std::{env, io};
use work::{KEYS, churn, fill, search};

fn main(rt: HostRuntime) -> io::Result<()> {
    let mut args = env::args(&rt)?;
    let _name = args.next();
    let steps = number(args.next());
    let searches = number(args.next());
    let mut lists = Lists::new(rt.alloc());
    match lists.reserve(KEYS) {
        Ok(()) => {
            fill(&mut lists);
            churn(&mut lists, steps);
            let passed = search(&lists, searches);
            let greatest = lists.greatest().unwrap_or(KEYS);
            println!(rt; "{KEYS} keys, {steps} steps, {passed} searches, greatest {greatest}")
        }
        Err(_) => println!(rt; "out of memory"),
    }
}

// The number that a word spells, or 0.
fn number(word: Option<String>) -> u64 {
    match word {
        Some(word) => {
            let parsed: Result<u64, ParseIntError> = word.as_str().parse();
            parsed.unwrap_or(0)
        }
        None => 0,
    }
}
