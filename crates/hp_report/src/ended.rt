use hp_events::Watchers;
use hp_heap::Heap;
use hp_maps::Table;
use hp_script::{Answer, Workload};
use hp_segs::Segs;
use hp_zone::Names;

/// What a run leaves: the workload, the answer of each of its lines, the heaps by index, the segments, the names, and the tables and the
/// watchers of participants by their number. Own.
#[derive(Drop)]
pub struct Ended<'a> {
    pub workload: Workload<'a>,
    pub answers: Vec<Answer>,
    pub heaps: Vec<Heap>,
    pub segs: Segs,
    pub names: Names,
    pub tables: Vec<Table>,
    pub watchers: Vec<Watchers>,
}
