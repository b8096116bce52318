//! Lists of heaps that a line tries or searches. Those of none and of one take no memory.
ghost use Rattle.std.specs.Prelude.{◌≡◌};
ghost use Rattle.std.specs.Option.{option_to_list};
ghost use Rattle.hp_proc.specs.PlaceLists.{place_list};

use crate::searched_heap::SearchedHeap;

/// The heaps that an allocation tries, or in which an element is looked for, in their order. Own.
#[derive(Drop)]
pub(crate) enum Places {
    Nothing,
    One([SearchedHeap; 1]),
    Several(Vec<SearchedHeap>),
}

impl Places {
    pub(crate) fn as_slice(&self) -> &[SearchedHeap]
        ensures value { result.now ≡ place_list self.now }
    {
        match self {
            Places::Nothing => &[],
            Places::One(heap) => heap.as_slice(),
            Places::Several(heaps) => heaps.as_slice(),
        }
    }
}

// A place, where there is one.
pub(crate) fn one_place(place: Option<SearchedHeap>) -> Places
    ensures { place_list result ≡ option_to_list place }
{
    match place {
        Some(place) => Places::One([place]),
        None => Places::Nothing,
    }
}
