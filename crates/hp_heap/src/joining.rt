ghost use Rattle.std.specs.Prelude.{◌≡◌, ◌+◌, ◌<◌, ◌^◌, ◌++◌, ◌∷◌};
ghost use Rattle.hp_base.specs.declared.span.Span.{Span};
ghost use Rattle.hp_chain.specs.Chain.{Keyed, AreApart};
ghost use Rattle.hp_chain.specs.Edits.{edited};
ghost use Rattle.hp_elem.specs.Items.{Items, IsAt};
ghost use Rattle.hp_heap.specs.PlainHeap.{end_of, freed};
ghost use Rattle.hp_heap.specs.Tiling.{joins};
ghost use Rattle.hp_heap.specs.Joining.{with_stretch};
ghost use Rattle.hp_heap.specs.Headers.{CanInsert, spans_of};
ghost use Rattle.hp_heap.specs.Joins.{CanStretch, CanInsertJoined, IsJoinable, IsLowered, with_upper};

use crate::headers::Headers;
use crate::state::{NO_TAG, is_free, touches};
use hp_base::Span;

/// Makes a busy element free, as one with the free elements of its list that touch it. After malloc_elem_free of
/// malloc_elem.
pub fn insert_joined(headers: &mut Headers, key: usize)
    requires busy { IsAt CanInsert key headers.old.items }
    requires apart { AreApart headers.old.items }
    requires joinable { IsJoinable (spans_of headers.old.items) }
    requires stamps { headers.old.insertions + 1 < 2 ^ 64 }
    ensures ranges { (front back : Items) (e : Keyed Span) → headers.old.items ≡ front ++ e ∷ back → e.key ≡ key
        → spans_of headers.new.items ≡ with_stretch (freed (headers.old.insertions + 1) e.value) (spans_of headers.old.items) }
    ensures insertions { headers.new.insertions ≡ headers.old.insertions + 1 }
    ensures spare { headers.new.spare ≡ headers.old.spare }
    ensures apart { AreApart headers.new.items }
{
    let lowest = join_down(headers, key);
    join_up(headers, lowest);
    headers.insert(lowest);
}

// Joins a busy element to the free one below it, where the two would be one, and gives the key of what it is then.
fn join_down(headers: &mut Headers, key: usize) -> usize
    requires can { CanInsertJoined key headers.old.items }
    ensures lowered { IsLowered key headers.old.items result headers.new.items }
    ensures insertions { headers.new.insertions ≡ headers.old.insertions }
    ensures spare { headers.new.spare ≡ headers.old.spare }
    ensures apart { AreApart headers.new.items }
{
    let node = *headers.get(key);
    let Some(prev) = node.prev else {
        return key;
    };
    let below = headers.get(prev).span;
    if !goes_on_below(&below, &node.span) {
        return key;
    }
    headers.take(prev, 0, 0, NO_TAG);
    headers.join(prev);
    prev
}

// Joins the free element above a busy one to it, where the two would be one.
fn join_up(headers: &mut Headers, key: usize)
    requires apart { AreApart headers.old.items }
    requires at { IsAt CanStretch key headers.old.items }
    ensures items { headers.new.items ≡ edited key with_upper headers.old.items }
    ensures insertions { headers.new.insertions ≡ headers.old.insertions }
    ensures spare { headers.new.spare ≡ headers.old.spare }
    ensures apart { AreApart headers.new.items }
{
    let node = *headers.get(key);
    let Some(next) = node.next else {
        return;
    };
    let above = headers.get(next).span;
    if !goes_on_above(&node.span, &above) {
        return;
    }
    headers.take(next, 0, 0, NO_TAG);
    headers.join(key);
}

// Whether an element would be one with the element below it, once it is free.
fn goes_on_below(below: &Span, span: &Span) -> bool
    requires { end_of below.now < 2 ^ 64 }
    ensures { result ≡ joins below.now (freed 0 span.now) }
{
    is_free(below) && touches(below, span)
}

// Whether an element would be one with the element above it, once it is free.
fn goes_on_above(span: &Span, above: &Span) -> bool
    requires { end_of span.now < 2 ^ 64 }
    ensures { result ≡ joins (freed 0 span.now) above.now }
{
    is_free(above) && touches(span, above)
}
