ghost use Rattle.std.specs.Prelude.{◌≡◌, ◌<◌, ◌≤◌, ℕ, List, [], IfOk, Option, Some, length, vec_capacity};
ghost use Rattle.hp_base.specs.Streams.{Takes, CountsFault, put_failed};

use crate::failing_calls::FailingCalls;
use std::alloc::{AllocError, Global};
use std::marker::Model;

/// What a write takes. Own.
#[derive(Clone, Copy, PartialEq, Eq)]
pub enum Put {
    /// The first bytes, so many.
    Took(usize),
    /// Writing failed, and nothing was taken.
    Failed,
}

/// Where the report is written to, piece by piece. Own.
pub trait Sink {
    /// The bytes that it holds, where it tells them.
    ghost held: { Self → Option (List ℕ) };

    /// How often writing has failed.
    ghost faults: { Self → ℕ };

    /// Takes some of the bytes, from the first on.
    fn write(&mut self, bytes: &[u8]) -> Put
        requires { 0 < length bytes.now }
        ensures bytes { Takes (held self.old) (held self.new) bytes.now result }
        ensures cause { CountsFault (faults self.old) (faults self.new) (put_failed result) };
}

/// A sink that keeps its bytes, takes at most `piece` of them at a time and fails at the calls that it is told, and where its memory ends,
/// which is not before the room that is set aside for it is full. Own.
#[derive(Drop)]
pub struct MemSink {
    bytes: Vec<u8>,
    // So many bytes are held without taking memory.
    room: usize,
    piece: usize,
    failing: FailingCalls,
}

impl Model for MemSink {
    ghost use Rattle.hp_base.specs.MemStreams.{IsSink, SinkState};
    ghost use Rattle.std.specs.Prelude.{vec_capacity};

    ghost Value = { SinkState };

    ghost view = { λ a. record {
      held = a.bytes.items;
      room = a.room;
      piece = a.piece;
      fails = a.failing.fails.items;
      calls = a.failing.calls;
      faults = a.failing.faults;
    } };

    ghost invariant = { λ a. IsSink a.piece a.room (vec_capacity a.bytes) };
}

impl MemSink {
    ghost use Rattle.hp_base.specs.MemStreams.{SinkState};

    /// A sink that holds nothing yet, and has no room set aside. Own.
    pub fn new(alloc: Global, piece: usize, fails: Vec<u64>) -> MemSink
        requires { 0 < piece }
        ensures { result ≡ record { held = []; room = 0; piece = piece; fails = fails.items; calls = 0; faults = 0 } }
    {
        MemSink::over(Vec::new(alloc), 0, piece, fails)
    }

    /// A sink that holds nothing yet, with room for so many bytes. Own.
    pub fn with_room(
        alloc: Global,
        room: usize,
        piece: usize,
        fails: Vec<u64>,
    ) -> Result<MemSink, AllocError>
        requires { 0 < piece }
        ensures { IfOk result
            (λ sink. sink ≡ record { held = []; room = room; piece = piece; fails = fails.items; calls = 0; faults = 0 }) }
    {
        Ok(MemSink::over(Vec::with_capacity(alloc, room)?, room, piece, fails))
    }

    // Over bytes that have the room.
    fn over(bytes: Vec<u8>, room: usize, piece: usize, fails: Vec<u64>) -> MemSink
        requires some { 0 < piece }
        requires room { room ≤ vec_capacity bytes }
        ensures { result ≡ record { held = bytes.items; room = room; piece = piece; fails = fails.items; calls = 0; faults = 0 } }
    {
        MemSink {
            bytes,
            room,
            piece,
            failing: FailingCalls {
                fails,
                calls: 0,
                faults: 0,
            },
        }
    }

    /// What it holds. Own.
    pub fn bytes(&self) -> &[u8]
        ensures { result.now ≡ self.now.held }
    {
        self.bytes.as_slice()
    }
}

impl Sink for MemSink {
    ghost use Rattle.hp_base.specs.MemStreams.{MayAnswer, after_write};

    ghost held = { λ s. Some s.held };

    ghost faults = { λ s. s.faults };

    fn write(&mut self, bytes: &[u8]) -> Put
        requires { 0 < length bytes.now }
        ensures bytes { Takes (Some self.old.held) (Some self.new.held) bytes.now result }
        ensures cause { CountsFault self.old.faults self.new.faults (put_failed result) }

        // Which answers there are, and the sink after each. It fails at a call that is to fail, or where its room does not hold the piece.
        ensures answer { MayAnswer self.old bytes.now result }
        ensures after { self.new ≡ after_write self.old bytes.now result }
    {
        if self.failing.next_fails() {
            return Put::Failed;
        }
        let n = bytes.len().min(self.piece);
        match self.bytes.extend_from_slice(&bytes[..n]) {
            Ok(()) => Put::Took(n),
            Err(_) => {
                self.failing.add_fault();
                Put::Failed
            }
        }
    }
}
