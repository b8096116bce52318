use crate::ask::Ask;
use crate::outcome::Cause;
use hp_base::Run;

/// A growth that is under way: its record's generation, the ask and the run, and the failed mapping that was noted.
/// Own.
#[derive(Clone, Copy)]
pub struct Growth {
    pub generation: u64,
    pub ask: Ask,
    pub run: Run,
    pub noted: Option<Cause>,
}
