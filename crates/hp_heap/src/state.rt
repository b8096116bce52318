ghost use Rattle.std.specs.Prelude.{◌≡◌, ◌<◌, ◌^◌};
ghost use Rattle.hp_heap.specs.PlainHeap.{is_free, end_of};
ghost use Rattle.hp_heap.specs.Tiling.{touches};

use hp_base::{Span, SpanState, Tag};

/// The tag of an element that is busy only until it is joined and inserted.
pub const NO_TAG: Tag = Tag {
    who: 0,
    zone: false,
    number: 0,
};

/// Whether an element is free.
pub fn is_free(range: &Span) -> bool
    ensures { result ≡ is_free range.now }
{
    match range.state {
        SpanState::Free { .. } => true,
        SpanState::Busy { .. } => false,
    }
}

/// Whether an element begins right behind another, in its segment list.
pub fn touches(first: &Span, second: &Span) -> bool
    requires { end_of first.now < 2 ^ 64 }
    ensures { result ≡ touches first.now second.now }
{
    first.list == second.list && first.addr + first.whole == second.addr
}
