ghost use Rattle.std.specs.Prelude.{◌≡◌, ◌∷◌, [], Some, IfOk, map};
ghost use Rattle.std.specs.List.{slice_get};
ghost use Rattle.hp_zone.specs.Directory.{opening};
ghost use Rattle.hp_board.specs.Served.{AreOpeningHeaps, HasNamesOf, IsNamedIn, serves_of};

use hp_base::MAX_HEAPS;
use hp_heap::Heap;
use std::alloc::{AllocError, Global};

// The heap with this index: that of socket 0 first, and heaps without a name.
fn heap_at(alloc: Global, index: u32) -> Heap
    ensures index { result.plain.index ≡ index }
    ensures empty { result.history ≡ [] }
    ensures named { IsNamedIn (opening (0 ∷ [])) index result }
    ensures serves { index ≡ 0 → result.plain.serves ≡ Some 0 }
{
    if index == 0 {
        Heap::socket(alloc, index, 0)
    } else {
        Heap::vacant(alloc, index)
    }
}

// The heaps of a board.
pub fn opening_heaps(alloc: Global) -> Result<Vec<Heap>, AllocError>
    ensures opening { IfOk result (λ heaps. AreOpeningHeaps heaps.items) }
    ensures names { IfOk result (λ heaps. HasNamesOf (opening (0 ∷ [])) heaps.items) }
    ensures first { IfOk result (λ heaps. slice_get (map serves_of heaps.items) 0 ≡ Some (Some 0)) }
{
    let mut heaps = Vec::with_capacity(alloc, MAX_HEAPS)?;
    for index in 0..MAX_HEAPS {
        heaps.push_reserved(heap_at(alloc, index as u32));
    }
    Ok(heaps)
}
