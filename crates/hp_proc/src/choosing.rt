//! The heaps that an allocation tries, in their order, where it names none.
ghost use Rattle.std.specs.Prelude.{◌≡◌, ◌++◌, IfOk, None, map, not};
ghost use Rattle.std.specs.List.{filter, find};
ghost use Rattle.std.specs.Option.{option_map};
ghost use Rattle.hp_proc.specs.Contexts.{is_of_socket, searched_heap};
ghost use Rattle.hp_proc.specs.Heaps.{heaps_for, socket_heaps};
ghost use Rattle.hp_proc.specs.PlaceLists.{place_list, place_named};

use crate::line_context::LineContext;
use crate::place_lists::{Places, one_place};
use crate::searched_heap::SearchedHeap;
use crate::socket_heap::SocketHeap;
use hp_script::SocketChoice;
use std::alloc::{AllocError, Global};

impl<'p> LineContext<'p> {
    // The heap of a socket, or all heaps of sockets, that of the participant's own socket first.
    pub(crate) fn heaps_for(&self, own: u32, choice: SocketChoice) -> Result<Places, AllocError>
        ensures { IfOk result (λ places. place_list places ≡ map place_named (heaps_for own (socket_heaps self.now.pools) None choice)) }
    {
        let heaps = self.heaps();
        match choice {
            SocketChoice::Number { socket } => Ok(one_place(of_socket(heaps, socket))),
            SocketChoice::Any => {
                let places = own_first(self.alloc, heaps, own)?;
                Ok(Places::Several(places))
            }
        }
    }
}

// The heap of a socket as a place.
fn place_of(heap: &SocketHeap) -> SearchedHeap
    ensures { result ≡ searched_heap heap.now }
{
    SearchedHeap {
        index: heap.index,
        serves: Some(heap.socket),
    }
}

// The heap of a socket.
fn of_socket(heaps: &[SocketHeap], socket: u32) -> Option<SearchedHeap>
    ensures { result ≡ option_map searched_heap (find (is_of_socket socket) heaps.now) }
{
    match heaps.iter().find(|heap| heap.socket == socket) {
        Some(heap) => Some(place_of(heap)),
        None => None,
    }
}

// The heap of a socket first, where there is one, and then the others in their order.
fn own_first(alloc: Global, heaps: &[SocketHeap], own: u32) -> Result<Vec<SearchedHeap>, AllocError>
    ensures { IfOk result (λ places. places.items
        ≡ map searched_heap (filter (is_of_socket own) heaps.now ++ filter (λ heap. not (is_of_socket own heap)) heaps.now)) }
{
    let mut places = Vec::with_capacity(alloc, heaps.len())?;
    for heap in heaps {
        if heap.socket == own {
            places.push(place_of(heap))?;
        }
    }
    for heap in heaps {
        if heap.socket != own {
            places.push(place_of(heap))?;
        }
    }
    Ok(places)
}
