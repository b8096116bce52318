use hp_events::Watchers;
use hp_heap::Heap;
use hp_maps::Table;
use hp_script::Answer;
use hp_segs::Segs;
use hp_zone::Names;

/// What participants on threads leave: an answer for each line, in the order of the lines, the heaps, the segment value, the names, and
/// each one's table and watchers. Own.
#[derive(Drop)]
pub struct Ended {
    pub answers: Vec<Answer>,
    pub heaps: Vec<Heap>,
    pub segs: Segs,
    pub names: Names,
    pub tables: Vec<Table>,
    pub watchers: Vec<Watchers>,
}
