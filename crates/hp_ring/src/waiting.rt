//! How a thread waits for another one.

use std::thread;

// Counts one more try that failed. Every 256th one lets other threads go on: what is waited for mostly needs less time than that takes.
pub(crate) fn pause(tries: &mut u8) {
    *tries = tries.wrapping_add(1);
    if *tries == 0 {
        thread::yield_now();
    }
}
