use crate::line::Line;
use hp_base::{PlanEntry, PoolLine};

/// A workload: who takes part, the pools, the planned disturbances, and the lines of the participants. Own.
#[derive(Drop)]
pub struct Workload<'a> {
    /// The number of participants, 1 to 16.
    pub participants: u8,
    /// Bit p is set where participant p is not attached at the start.
    pub absent: u16,
    /// Each participant's own socket, 0 to 31.
    pub sockets: [u32; 16],
    /// The deadline in milliseconds, 1 to 3,600,000.
    pub deadline: u64,
    /// The hugepage pools, in the order of the text.
    pub pools: Vec<PoolLine>,
    /// The planned disturbances, in the order of the text.
    pub plan: Vec<PlanEntry>,
    /// The participant lines, in the order of the text.
    pub lines: Vec<Line<'a>>,
}
