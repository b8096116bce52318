//! The heaps that have a name, by the directory of heaps.
ghost use Rattle.std.specs.Prelude.{◌≡◌, IfOk, map};
ghost use Rattle.std.specs.List.{find};
ghost use Rattle.std.specs.Option.{option_map};
ghost use Rattle.hp_proc.specs.Heaps.{has_name};
ghost use Rattle.hp_proc.specs.PlaceLists.{place_named};
ghost use Rattle.hp_proc.specs.SharedNames.{heaps_in, served_by};
ghost use Rattle.hp_zone.specs.Directory.{IsDirectory};

use crate::searched_heap::SearchedHeap;
use hp_base::MAX_HEAPS;
use hp_zone::{FIRST_EXTERNAL_SOCKET, Names};
use std::alloc::{AllocError, Global};

// The socket whose pages the heap with a socket number takes, or none where its memory is external.
fn served_by(socket: u32) -> Option<u32>
    ensures { result ≡ served_by socket }
{
    if socket < FIRST_EXTERNAL_SOCKET {
        Some(socket)
    } else {
        None
    }
}

/// The heap of a name.
pub(crate) fn place_of(names: &Names, text: &[u8]) -> Option<SearchedHeap>
    requires sound { IsDirectory names.now.heaps }
    ensures { result ≡ option_map place_named (find (has_name text.now) (heaps_in names.now.heaps.plain)) }
{
    match names.heaps.lookup(text) {
        Some((index, socket)) => Some(SearchedHeap {
            index,
            serves: served_by(socket),
        }),
        None => None,
    }
}

/// All heaps that have a name, by rising index.
pub(crate) fn places_in(alloc: Global, names: &Names) -> Result<Vec<SearchedHeap>, AllocError>
    requires sound { IsDirectory names.now.heaps }
    ensures { IfOk result (λ places. places.items ≡ map place_named (heaps_in names.now.heaps.plain)) }
{
    let mut places = Vec::with_capacity(alloc, MAX_HEAPS)?;
    for index in 0..MAX_HEAPS as u32 {
        if let Some((_name, socket)) = names.heaps.at(index) {
            places.push(SearchedHeap {
                index,
                serves: served_by(socket),
            })?;
        }
    }
    Ok(places)
}
