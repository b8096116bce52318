//! Walks along the links.
ghost use Rattle.std.specs.Prelude.{◌≡◌, ℕ};
ghost use Rattle.hp_chain.specs.Chain.{walk};
ghost use Rattle.hp_elem.specs.Items.{key_at, first_tagged, is_tagged_state};
ghost use Rattle.hp_elem.specs.Order.{IsRising};
ghost use Rattle.slab.specs.Slab.{slab_len};
ghost use Rattle.hp_elem.specs.Links.{place_at};

use crate::node::Node;
use hp_base::{SpanState, Tag};
use slab::Slab;

// The element that contains an address, from a key on. The walk ends where an element begins above the address.
pub(crate) fn find_address(slots: &Slab<Node>, from: Option<usize>, addr: u64) -> Option<usize>
    requires rising { IsRising 0 (walk (place_at slots.now) (slab_len slots.now) from) }
    ensures { result ≡ key_at addr (walk (place_at slots.now) (slab_len slots.now) from) }
{
    let mut at = from;
    for _i in 0..slots.len() {
        let key = at?;
        let node = slots.get(key)?;
        if addr < node.span.addr {
            return None;
        }
        if addr - node.span.addr < node.span.whole {
            return Some(key);
        }
        at = node.next;
    }
    None
}

// The first element that is busy with a tag, from a key on.
pub(crate) fn find_tag(slots: &Slab<Node>, from: Option<usize>, tag: Tag) -> Option<usize>
    ensures { result ≡ first_tagged tag.zone tag.number (walk (place_at slots.now) (slab_len slots.now) from) }
{
    let mut at = from;
    for _i in 0..slots.len() {
        let key = at?;
        let node = slots.get(key)?;
        if has_tag(&node.span.state, tag) {
            return Some(key);
        }
        at = node.next;
    }
    None
}

// Whether an element is busy with a tag. Who asked for it is not compared.
pub(crate) fn has_tag(state: &SpanState, tag: Tag) -> bool
    ensures { result ≡ is_tagged_state tag.zone tag.number state.now }
{
    match state {
        SpanState::Free { .. } => false,
        SpanState::Busy { tag: own, .. } => own.zone == tag.zone && own.number == tag.number,
    }
}
