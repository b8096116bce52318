//! The opening directory: the names of the heaps of sockets.
ghost use Rattle.std.specs.Prelude.{◌≡◌, ◌+◌, ◌≤◌, ◌++◌, length, map, take, IfOk, vec_len};
ghost use Rattle.hp_zone.specs.Directory.{opening, socket_heap, socket_name};

use crate::heap_name::HeapName;
use hp_base::{MAX_HEAPS, Name};
use itoa::Buffer;
use std::alloc::{AllocError, Global};

// The name of the heap of a socket: `socket_` and the number.
#[tactic(auto, unfolding(crate::specs::Directory::socket_name))]
fn socket_name(socket: u32) -> Name
    ensures { result ≡ socket_name socket }
{
    let mut buffer = Buffer::new();
    let digits = buffer.format(socket).as_bytes();
    let mut text = [0u8; 17];
    let len = put_both(&mut text, b"socket_", digits);
    Name::new(&text[..len]).unwrap()
}

// Puts two texts at the front of a buffer, one after the other, and gives their length.
fn put_both(text: &mut [u8], first: &[u8], second: &[u8]) -> usize
    requires { length first.now + length second.now ≤ length text.old }
    ensures len { result ≡ length first.now + length second.now }
    ensures text { take result text.new ≡ first.now ++ second.now }
{
    let (front, rest) = text.split_at_mut(first.len());
    front.copy_from_slice(first);
    let (next, _) = rest.split_at_mut(second.len());
    next.copy_from_slice(second);
    first.len() + second.len()
}

// The names of the heaps of sockets.
fn socket_heaps(alloc: Global, sockets: &[u32]) -> Result<Vec<Option<HeapName>>, AllocError>
    ensures items { IfOk result (λ heaps. heaps.items ≡ map socket_heap sockets.now) }
    ensures len { IfOk result (λ heaps. vec_len heaps ≡ length sockets.now) }
{
    let mut heaps = Vec::new(alloc);
    for socket in sockets {
        heaps.push(Some(HeapName {
            name: socket_name(*socket),
            socket: *socket,
        }))?;
    }
    Ok(heaps)
}

// The names of the heaps of sockets, and then none, for all indexes.
pub(crate) fn opening_heaps(
    alloc: Global,
    sockets: &[u32],
) -> Result<Vec<Option<HeapName>>, AllocError>
    requires { length sockets.now ≤ MAX_HEAPS }
    ensures { IfOk result (λ heaps. heaps.items ≡ (opening sockets.now).heaps) }
{
    let mut heaps = socket_heaps(alloc, sockets)?;
    heaps.resize(MAX_HEAPS, None)?;
    Ok(heaps)
}
