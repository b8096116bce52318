//! What a hall hands out at its end.

use hp_base::MAX_HEAPS;
use hp_heap::Heap;
use hp_plain::HallParts;

// Whether these participants called a heap, one after another.
fn is_called_by(heap: &Heap, callers: &[u8]) -> bool {
    let history = heap.history();
    if history.len() != callers.len() {
        return false;
    }
    for place in 0..history.len() {
        if history[place].caller.participant != callers[place] {
            return false;
        }
    }
    true
}

/// Whether the heaps are all there, each at its index, these participants called heap 3 and nobody another heap, those in the roster
/// are these, as bits, and there are two records.
pub fn has_ended(parts: &HallParts, callers: &[u8], roster: u16) -> bool {
    let segs = &parts.segs;
    if parts.heaps.len() != MAX_HEAPS || segs.roster() != roster || segs.records().len() != 2 {
        return false;
    }
    for index in 0..parts.heaps.len() {
        let heap = &parts.heaps[index];
        let is_right = if index == 3 {
            is_called_by(heap, callers)
        } else {
            heap.history().is_empty()
        };
        if heap.index() as usize != index || !is_right {
            return false;
        }
    }
    true
}
