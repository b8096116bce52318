//! The program as one call.
ghost use Rattle.std.specs.Prelude.{◌≡◌, ◌≤◌, IfSome, map, string_bytes};
ghost use Rattle.hp_base.specs.Streams.{CountsFault, HasRisen};
ghost use Rattle.hp_ring.specs.declared.judging.TheConstants.{MAX_SLOTS};
ghost use Rattle.hp_ring.specs.Program.{Ends, is_read_fault, is_write_fault, slots_of};

use crate::judging::{MAX_SLOTS, bytes_of};
use crate::ring::Ring;
use crate::weaving::weave;
use hp_base::{Name, Sink, Source, Status};
use hp_command::{count, dashes_at, number, write_whole};
use hp_zone::Zone;
use std::alloc::Global;
use std::sync::Wait;
use std::thread::Threads;

// Where the zone of the program's ring is.
const ZONE_ADDRESS: u64 = 0x1_0000_0000;

// What is written where the words are none that the program takes.
const USAGE: &[u8] = b"usage: heapring <slots>\n";

/// The program: its words, without its name, a text, and where the text goes. Where the words are a number of slots it makes a ring of two
/// senders with so many, and does what `weave` does. Own.
pub fn top<R: Threads + Wait + Sync, S: Source, K: Sink>(
    rt: &R,
    alloc: Global,
    words: &[String],
    source: &mut S,
    sink: &mut K,
) -> Status
    ensures outcome { Ends (slots_of (map string_bytes words.now))
        (S.left source.old) (S.left source.new) (K.held sink.old) (K.held sink.new)
        (HasRisen (S.faults source.old) (S.faults source.new)) (HasRisen (K.faults sink.old) (K.faults sink.new)) result }
    ensures source_faults { CountsFault (S.faults source.old) (S.faults source.new) (is_read_fault result) }
    ensures sink_faults { CountsFault (K.faults sink.old) (K.faults sink.new) (is_write_fault result) }
{
    let Some(slots) = slots_of(words) else {
        return match write_whole(sink, USAGE) {
            Ok(()) => Status::Usage,
            Err(_) => Status::WriteFault,
        };
    };
    match Ring::new(alloc, &zone(slots), slots, 2) {
        Ok((ring, senders, taker)) => {
            let (status, _senders, _taker) = weave(rt, alloc, &ring, senders, taker, source, sink);
            status
        }
        Err(_) => Status::OutOfMemory,
    }
}

// A zone as long as a ring of so many slots.
fn zone(slots: u32) -> Zone
    requires { slots ≤ MAX_SLOTS }
{
    let Some(name) = Name::new(b"heapring") else {
        unreachable!()
    };
    Zone {
        name,
        addr: ZONE_ADDRESS,
        len: bytes_of(slots),
        socket: 0,
        heap: 0,
    }
}

// What the words ask for.
fn slots_of(words: &[String]) -> Option<u32>
    ensures slots { result ≡ slots_of (map string_bytes words.now) }
    ensures within { IfSome result (λ slots. slots ≤ MAX_SLOTS) }
{
    let dashes = dashes_at(words);
    if count(words, dashes) != 1 {
        return None;
    }
    number(words, dashes, 0, 1, MAX_SLOTS)
}
