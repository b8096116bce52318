//! The element that begins at an address, or whose data do.
ghost use Rattle.std.specs.Prelude.{◌≡◌, ◌≤◌, Some, IfSome};
ghost use Rattle.hp_elem.specs.Items.{key_at, key_from};

use crate::elems::Elems;
use crate::starts;
use hp_base::{HEADER, LINE};

// How far the start of an element's data may lie above that of the element: its header, and a pad of 0 to 2 lines.
const OFFSETS: [u64; 4] = [0, HEADER, HEADER + LINE, HEADER + 2 * LINE];

impl Elems {
    /// The element that begins at an address, found in constant time. Own.
    pub fn starting_at(&self, addr: u64) -> Option<usize>
        ensures { result ≡ key_from addr self.now.items }
    {
        starts::find(&self.starts, addr)
    }

    // The element that contains an address, where that is its start or that of its data.
    pub(crate) fn near(&self, addr: u64) -> Option<usize>
        ensures { IfSome result (λ key. key_at addr self.now.items ≡ Some key) }
    {
        for back in OFFSETS {
            if back <= addr {
                if let Some(key) = self.holder(addr - back, addr) {
                    return Some(key);
                }
            }
        }
        None
    }

    // The element that begins at `start`, where it contains the address.
    fn holder(&self, start: u64, addr: u64) -> Option<usize>
        requires above { start ≤ addr }
        ensures { IfSome result (λ key. key_at addr self.now.items ≡ Some key) }
    {
        let key = starts::find(&self.starts, start)?;
        if addr - start < self.chain.get(key).span.whole {
            Some(key)
        } else {
            None
        }
    }
}
