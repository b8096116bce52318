use std::sync::atomic::{AtomicU64, Ordering};

/// What participants on threads tell one another beside the board: how many have finished, and whether one has met a refusal of memory. No
/// clause reads it. Own.
#[derive(Drop)]
pub struct Marks {
    finished: AtomicU64,
    stopped: AtomicU64,
}

impl Marks {
    /// Nobody has finished or stopped.
    pub fn new() -> Marks {
        Marks {
            finished: AtomicU64::new(0),
            stopped: AtomicU64::new(0),
        }
    }

    /// One participant more has done its lines.
    pub fn finish(&self) {
        let _ = self.finished.fetch_add(1, Ordering::SeqCst);
    }

    /// How many have done their lines.
    pub fn finished(&self) -> u64 {
        self.finished.load(Ordering::SeqCst)
    }

    /// One has met a refusal of memory.
    pub fn stop(&self) {
        self.stopped.store(1, Ordering::SeqCst);
    }

    /// Whether one has met a refusal of memory.
    pub fn is_stopped(&self) -> bool {
        self.stopped.load(Ordering::SeqCst) != 0
    }
}
