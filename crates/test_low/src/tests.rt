//! Worked values of the low crates' calls, a file or two for each crate. Each test is a list of calls with their answers.
mod base;
mod elem;
mod events;
mod fbarray;
mod flags;
mod frame;
mod freelist;
mod log;
mod memory;
mod pool;
mod streams;
mod words;
mod written;
mod zone;

use std::test::Fail;

// What stands at that place of a list, counted from 0, came out otherwise.
#[derive(Debug, Drop)]
struct Otherwise {
    place: usize,
}

// Nothing came out otherwise than it stands, or what stands at that place did.
fn ended(otherwise: Option<usize>) -> Result<(), Fail> {
    match otherwise {
        None => Ok(()),
        Some(place) => Err(Otherwise { place }.into()),
    }
}

// What has to hold holds.
fn holds(is_so: bool) -> Result<(), Fail> {
    if is_so {
        Ok(())
    } else {
        Err("what has to hold".into())
    }
}
