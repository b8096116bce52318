//! The heaps and the names that a board opens with.
ghost use Rattle.std.specs.Prelude.{◌≡◌, ◌<◌, ◌∷◌, ℕ, [], IfOk};
ghost use Rattle.hp_zone.specs.Directory.{opened, opening};
ghost use Rattle.hp_zone.specs.Zones.{no_zones};
ghost use Rattle.hp_board.specs.Served.{AreOpeningHeaps, HasNamesOf, IsNamedIn};

use hp_base::MAX_HEAPS;
use hp_heap::Heap;
use hp_zone::Names;
use std::alloc::{AllocError, Global};

// The heap with this index: that of socket 0 first, and heaps without a name.
fn heap_at(alloc: Global, index: u32) -> Heap
    ensures index { result.plain.index ≡ index }
    ensures empty { result.history ≡ [] }
    ensures named { IsNamedIn (opening (0 ∷ [])) index result }
{
    if index == 0 {
        Heap::socket(alloc, index, 0)
    } else {
        Heap::vacant(alloc, index)
    }
}

/// The heaps of a board.
pub fn opening_heaps(alloc: Global) -> Result<Vec<Heap>, AllocError>
    ensures opening { IfOk result (λ heaps. AreOpeningHeaps heaps.items) }
    ensures names { IfOk result (λ heaps. HasNamesOf (opening (0 ∷ [])) heaps.items) }
{
    let mut heaps = Vec::with_capacity(alloc, MAX_HEAPS)?;
    for index in 0..MAX_HEAPS {
        heaps.push_reserved(heap_at(alloc, index as u32));
    }
    Ok(heaps)
}

/// The names of a board whose first heap is that of socket 0.
pub fn opening_names(alloc: Global) -> Result<Names, AllocError>
    ensures heaps { IfOk result (λ names. names.heaps ≡ opened (0 ∷ [])) }
    ensures zones { IfOk result (λ names. names.zones ≡ no_zones) }
{
    Names::new(alloc, &[0])
}
