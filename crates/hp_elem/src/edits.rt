//! Writes of headers in the slab, field by field, and the edits made of them.
ghost use Rattle.std.specs.Prelude.{◌≡◌, ◌≢◌, ℕ, ◌+◌, ◌<◌, Some, None, option_map};
ghost use Rattle.slab.specs.Slab.{get, slab_len, ContainsKey, HasRoomFor};
ghost use Rattle.hp_chain.specs.Writes.{written, with_next, with_prev, with_place};
ghost use Rattle.hp_elem.specs.Links.{place_at, place_of, IsKnown, Keeps, CanUnlink, IsUnlinked, with_whole, with_state};
ghost use Rattle.hp_elem.specs.Links as links;

use crate::node::Node;
use hp_base::{Span, SpanState};
use slab::Slab;

// Names the element behind the one under `key`, where there is a key.
pub(crate) fn set_next(slots: &mut Slab<Node>, key: Option<usize>, next: Option<usize>)
    requires known { IsKnown slots.old key }
    ensures places { place_at slots.new ≡ with_next key next (place_at slots.old) }
    ensures keeps { Keeps slots.old slots.new }
{
    if let Some(key) = key {
        slots[key].next = next;
    }
}

// Names the element before the one under `key`, where there is a key.
pub(crate) fn set_prev(slots: &mut Slab<Node>, key: Option<usize>, prev: Option<usize>)
    requires known { IsKnown slots.old key }
    ensures places { place_at slots.new ≡ with_prev key prev (place_at slots.old) }
    ensures keeps { Keeps slots.old slots.new }
{
    if let Some(key) = key {
        slots[key].prev = prev;
    }
}

// Gives the element under `key` another whole size.
pub(crate) fn set_whole(slots: &mut Slab<Node>, key: usize, whole: u64)
    requires known { ContainsKey slots.old key }
    ensures places { place_at slots.new ≡ with_whole key whole (place_at slots.old) }
    ensures keeps { Keeps slots.old slots.new }
{
    slots[key].span.whole = whole;
}

// Gives the element under `key` another state.
pub(crate) fn set_state(slots: &mut Slab<Node>, key: usize, state: SpanState)
    requires known { ContainsKey slots.old key }
    ensures places { place_at slots.new ≡ with_state key state (place_at slots.old) }
    ensures keeps { Keeps slots.old slots.new }
{
    slots[key].span.state = state;
}

// Puts a header under a new key.
pub(crate) fn put(slots: &mut Slab<Node>, node: Node) -> usize
    requires room { HasRoomFor slots.old 1 }
    ensures fresh { get slots.old result ≡ None }
    ensures places { place_at slots.new ≡ with_place result (Some (place_of node)) (place_at slots.old) }
    ensures kept { (key : ℕ) → ContainsKey slots.old key → ContainsKey slots.new key }
    ensures len { slab_len slots.new ≡ slab_len slots.old + 1 }
    ensures capacity { slots.new.capacity ≡ slots.old.capacity }
    ensures within { result < slots.old.capacity }
{
    slots.insert_reserved(node)
}

// Takes the header under a key out.
pub(crate) fn take(slots: &mut Slab<Node>, key: usize) -> Node
    requires known { ContainsKey slots.old key }
    ensures value { get slots.old key ≡ Some result }
    ensures places { place_at slots.new ≡ with_place key None (place_at slots.old) }
    ensures kept { (other : ℕ) → other ≢ key → ContainsKey slots.old other → ContainsKey slots.new other }
    ensures len { slab_len slots.new + 1 ≡ slab_len slots.old }
    ensures capacity { slots.new.capacity ≡ slots.old.capacity }
{
    slots.remove(key)
}

// Puts a new element between two that are linked, or at an end.
pub(crate) fn link_between(
    slots: &mut Slab<Node>,
    prev: Option<usize>,
    span: Span,
    next: Option<usize>,
) -> usize
    requires room { HasRoomFor slots.old 1 }
    requires prev_known { IsKnown slots.old prev }
    requires next_known { IsKnown slots.old next }
    ensures fresh { get slots.old result ≡ None }
    ensures places { place_at slots.new ≡ with_prev next (Some result) (with_next prev (Some result)
        (with_place result (Some (record { prev = prev; next = next; value = span })) (place_at slots.old))) }
    ensures len { slab_len slots.new ≡ slab_len slots.old + 1 }
    ensures capacity { slots.new.capacity ≡ slots.old.capacity }
    ensures within { result < slots.old.capacity }
{
    let key = put(slots, Node { span, prev, next });
    set_next(slots, prev, Some(key));
    set_prev(slots, next, Some(key));
    key
}

// An end of the elements, first or last: another one where nothing lies beyond.
pub(crate) fn end_unless(
    beyond: Option<usize>,
    stays: Option<usize>,
    other: Option<usize>,
) -> Option<usize>
    ensures { result ≡ links.end_unless beyond stays other }
{
    if beyond.is_none() { other } else { stays }
}

// Takes an element out, once its neighbours name each other.
pub(crate) fn unlink(slots: &mut Slab<Node>, key: usize)
    requires linked { CanUnlink slots.old key }
    ensures places { IsUnlinked slots.old slots.new key }
    ensures len { slab_len slots.new + 1 ≡ slab_len slots.old }
    ensures capacity { slots.new.capacity ≡ slots.old.capacity }
    ensures kept { (other : ℕ) → other ≢ key → ContainsKey slots.old other → ContainsKey slots.new other }
{
    let Node { prev, next, .. } = slots[key];
    set_next(slots, prev, next);
    set_prev(slots, next, prev);
    take(slots, key);
}
