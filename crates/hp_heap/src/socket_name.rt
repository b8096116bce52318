ghost use Rattle.std.specs.Prelude.{◌≡◌, ◌+◌, ◌≤◌, ◌++◌, length, take};
ghost use Rattle.hp_heap.specs.PlainHeap.{opening_name, opening_socket, socket_name};

use hp_base::Name;
use itoa::Buffer;

/// The name of the heap of a socket: `socket_` and the number.
#[tactic(auto, unfolding(crate::specs::PlainHeap::socket_name))]
pub fn socket_name(socket: u32) -> Name
    ensures { result ≡ socket_name socket }
{
    let mut buffer = Buffer::new();
    let digits = buffer.format(socket).as_bytes();
    let mut text = [0u8; 17];
    let len = put_both(&mut text, b"socket_", digits);
    Name::new(&text[..len]).unwrap()
}

/// The name of a heap before its first call: that of its socket.
pub fn opening_name(serves: Option<u32>) -> Option<Name>
    ensures { result ≡ opening_name serves }
{
    match serves {
        Some(socket) => Some(socket_name(socket)),
        None => None,
    }
}

/// Its socket number then.
pub fn opening_socket(serves: Option<u32>) -> u32
    ensures { result ≡ opening_socket serves }
{
    match serves {
        Some(socket) => socket,
        None => 0,
    }
}

// Puts two texts at the front of a buffer, one after the other, and gives their length.
fn put_both(text: &mut [u8], first: &[u8], second: &[u8]) -> usize
    requires { length first.now + length second.now ≤ length text.old }
    ensures len { result ≡ length first.now + length second.now }
    ensures text { take result text.new ≡ first.now ++ second.now }
{
    let (front, rest) = text.split_at_mut(first.len());
    front.copy_from_slice(first);
    let (next, _) = rest.split_at_mut(second.len());
    next.copy_from_slice(second);
    first.len() + second.len()
}
